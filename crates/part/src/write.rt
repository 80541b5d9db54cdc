// The part that holds a disk by value.

ghost use Rattle.std.specs.Prelude.{◌≡◌, ◌+◌, ◌*◌, ◌≤◌, ◌<◌, length};
ghost use Rattle.num.specs.Runs.{flat, splice};
ghost use Rattle.part.specs.Layout.{claim_words, in_slots, head_words, encode};

use crate::layout::{ACTIVE_AT, PART_BYTES, SLOT_BYTES, WAITING_AT};
use law::Claim;
use num::signed::to_word;
use num::word::put_word;
use rules::disk::Disk;

// Puts a disk into its part.
pub fn put_disk(s: &mut [u8; PART_BYTES], d: Disk)
    ensures { s.new ≡ encode d }
{
    put_words(s, 0, &head_words(d));
    put_claims(s, ACTIVE_AT, &d.active);
    put_claims(s, WAITING_AT, &d.waiting);
}

// The words of the head.
fn head_words(d: Disk) -> [u32; 16]
    ensures { result ≡ head_words d }
{
    [
        d.clock,
        d.next,
        d.actives,
        d.waitings,
        to_word(d.used.value),
        d.used.stamp,
        d.used.amount,
        d.used.limit,
        to_word(d.promised.value),
        d.promised.stamp,
        d.promised.amount,
        d.promised.limit,
        to_word(d.state.value),
        d.state.stamp,
        0,
        0,
    ]
}

// Puts claims into their slots, one behind the other.
pub(crate) fn put_claims(s: &mut [u8], at: usize, cs: &[Claim; 8])
    requires { at + 352 ≤ length s.old }
    ensures { s.new ≡ splice s.old at (in_slots cs.now) }
{
    for i in 0..8 {
        put_claim(s, at + SLOT_BYTES * i, cs[i]);
    }
}

// Puts a claim into its slot.
pub fn put_claim(s: &mut [u8], at: usize, c: Claim)
    requires { at + 44 ≤ length s.old }
    ensures { s.new ≡ splice s.old at (flat (claim_words c)) }
{
    put_words(s, at, &claim_words(c));
}

// The words of a slot.
fn claim_words(c: Claim) -> [u32; 11]
    ensures { result ≡ claim_words c }
{
    [
        c.ticket,
        c.method,
        c.priority,
        c.flag,
        c.measured,
        to_word(c.value),
        c.error,
        to_word(c.told),
        c.amount,
        0,
        0,
    ]
}

// Puts words one behind the other.
fn put_words(s: &mut [u8], at: usize, words: &[u32])
    requires { at + 4 * length words.now ≤ length s.old }
    ensures { s.new ≡ splice s.old at (flat words.now) }
{
    for j in 0..words.len() {
        put_word(s, at + 4 * j, words[j]);
    }
}
