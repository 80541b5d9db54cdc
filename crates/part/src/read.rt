// The figures and claims of a part, read where they stand.

ghost use Rattle.std.specs.Prelude.{◌≡◌, ◌+◌, ◌≤◌, ◌<◌, length, take, drop, get_or};
ghost use Rattle.rules.specs.Rows.{no_claim};
ghost use Rattle.rules.specs.Disks.{figures_at};
ghost use Rattle.part.specs.Layout.{claim_in, attr_at, state_in, decode};
ghost use Rattle.part.specs.Status.{count_in, places_in};

use crate::layout::{
    AMOUNT_IN, CLOCK_AT, LIMIT_IN, NEXT_AT, PART_BYTES, PROMISED_AT, SLOT_AMOUNT, SLOT_BYTES,
    SLOT_ERROR, SLOT_FLAG, SLOT_MEASURED, SLOT_METHOD, SLOT_PRIORITY, SLOT_TICKET, SLOT_TOLD,
    SLOT_VALUE, STAMP_IN, STATE_AT, USED_AT,
};
use crate::status::Status;
use law::{Attr, Claim};
use num::signed::signed_at;
use num::word::word_at;
use rules::figures::Figures;

// The clock.
pub fn clock_at(s: &[u8; PART_BYTES]) -> u32
    ensures { result ≡ (decode s.now).clock }
{
    word_at(s, CLOCK_AT)
}

// The next ticket.
pub fn next_at(s: &[u8; PART_BYTES]) -> u32
    ensures { result ≡ (decode s.now).next }
{
    word_at(s, NEXT_AT)
}

// How many claims are active, or wait.
pub fn count_at(s: &[u8; PART_BYTES], status: Status) -> u32
    ensures { result ≡ count_in status (decode s.now) }
{
    word_at(s, status.count_at())
}

// The three figures.
pub fn figures_at(s: &[u8; PART_BYTES]) -> Figures
    ensures { result ≡ figures_at (decode s.now) }
{
    Figures {
        used: attr_at(s, USED_AT),
        promised: attr_at(s, PROMISED_AT),
        state: state_in(s, STATE_AT),
    }
}

// The claim in a slot of the active claims, or of those that wait.
pub fn slot_at(s: &[u8; PART_BYTES], status: Status, i: usize) -> Claim
    requires { i < 8 }
    ensures { result ≡ get_or (places_in status (decode s.now)) i no_claim }
{
    claim_at(s, status.slots_at() + SLOT_BYTES * i)
}

// The four figures of used or promised.
fn attr_at(s: &[u8], at: usize) -> Attr
    requires { at + 16 ≤ length s.now }
    ensures { result ≡ attr_at s.now at }
{
    Attr {
        value: signed_at(s, at),
        stamp: word_at(s, at + STAMP_IN),
        amount: word_at(s, at + AMOUNT_IN),
        limit: word_at(s, at + LIMIT_IN),
    }
}

// The state's two.
fn state_in(s: &[u8], at: usize) -> Attr
    requires { at + 8 ≤ length s.now }
    ensures { result ≡ state_in s.now at }
{
    Attr {
        value: signed_at(s, at),
        stamp: word_at(s, at + STAMP_IN),
        amount: 0,
        limit: 0,
    }
}

// The claim of the slot at an index.
pub fn claim_at(s: &[u8], at: usize) -> Claim
    requires { at + 44 ≤ length s.now }
    ensures { result ≡ claim_in (take 44 (drop at s.now)) }
{
    claim_in(&s[at..at + SLOT_BYTES])
}

// The claim in the bytes of a slot.
fn claim_in(s: &[u8]) -> Claim
    requires { length s.now ≡ 44 }
    ensures { result ≡ claim_in s.now }
{
    Claim {
        ticket: word_at(s, SLOT_TICKET),
        method: word_at(s, SLOT_METHOD),
        priority: word_at(s, SLOT_PRIORITY),
        flag: word_at(s, SLOT_FLAG),
        measured: word_at(s, SLOT_MEASURED),
        value: signed_at(s, SLOT_VALUE),
        error: word_at(s, SLOT_ERROR),
        told: signed_at(s, SLOT_TOLD),
        amount: word_at(s, SLOT_AMOUNT),
    }
}
