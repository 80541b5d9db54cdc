// Whether a part decodes: every byte that carries no figure is zero.

ghost use Rattle.std.specs.Prelude.{◌≡◌, ◌+◌, ◌*◌, ◌-◌, ◌≤◌, length};
ghost use Rattle.part.specs.Layout.{zero_at, spare_zero, slots_whole, decodes};

use crate::layout::{
    ACTIVE_AT, ACTIVES_AT, HEAD_SPARE_AT, PART_BYTES, SLOT_BYTES, SLOT_SPARE, SLOTS_BYTES,
    WAITING_AT, WAITINGS_AT,
};
use num::word::word_at;

// Whether a part decodes. Where nothing waits, as often, the waiting slots are one range that the compiler knows; where nothing is
// active either, all slots are one.
pub fn decodes(s: &[u8; PART_BYTES]) -> bool
    ensures { result ≡ decodes s.now }
{
    let spare = zero_words(s, HEAD_SPARE_AT, 2);
    let actives = word_at(s, ACTIVES_AT);
    let waitings = word_at(s, WAITINGS_AT);
    if waitings == 0 {
        if actives == 0 {
            return spare & zero_between(s, ACTIVE_AT, PART_BYTES);
        }
        return spare & slots_whole(s, ACTIVE_AT, actives) & zero_between(s, WAITING_AT, PART_BYTES);
    }
    spare & slots_whole(s, ACTIVE_AT, actives) & slots_whole(s, WAITING_AT, waitings)
}

// Whether of eight slots the first `n` hold claims, and the others are zero. Each number has its own arm, so that the compiler
// knows the range behind the claims.
fn slots_whole(s: &[u8], at: usize, n: u32) -> bool
    requires { at + 352 ≤ length s.now }
    ensures { result ≡ slots_whole s.now at n }
{
    match n {
        0 => claims_then_zero(s, at, 0, 0),
        1 => claims_then_zero(s, at, 1, 5),
        2 => claims_then_zero(s, at, 2, 2),
        3 => claims_then_zero(s, at, 3, 7),
        4 => claims_then_zero(s, at, 4, 4),
        5 => claims_then_zero(s, at, 5, 1),
        6 => claims_then_zero(s, at, 6, 6),
        7 => claims_then_zero(s, at, 7, 3),
        8 => claims_then_zero(s, at, 8, 0),
        _ => false,
    }
}

// That for a number `n`. The first `words` words behind the claims are tested one by one, so many that the rest is a multiple of 32
// bytes, which the processor tests in wide steps.
fn claims_then_zero(s: &[u8], at: usize, n: usize, words: usize) -> bool
    requires at_in_bounds { at + 352 ≤ length s.now }
    requires n_bound { n ≤ 8 }
    requires words_bound { 44 * n + 4 * words ≤ 352 }
    ensures { result ≡ slots_whole s.now at n }
{
    spare_zero(s, at, n) & zero_from(s, at + SLOT_BYTES * n, words, at + SLOTS_BYTES)
}

// Whether the two words behind the figures are zero in each of `n` slots: all are joined, and tested once.
fn spare_zero(s: &[u8], at: usize, n: usize) -> bool
    requires { at + 44 * n ≤ length s.now }
    ensures { result ≡ spare_zero s.now at n }
{
    let mut all = 0;
    for i in 0..n {
        let p = at + SLOT_BYTES * i + SLOT_SPARE;
        all |= word_at(s, p) | word_at(s, p + 4);
    }
    all == 0
}

// Whether the bytes of a range are zero: its first words, and the rest.
fn zero_from(s: &[u8], from: usize, words: usize, to: usize) -> bool
    requires words_bound { from + 4 * words ≤ to }
    requires to_in_bounds { to ≤ length s.now }
    ensures { result ≡ zero_at s.now from (to - from) }
{
    zero_words(s, from, words) & zero_between(s, from + 4 * words, to)
}

// Whether `n` words are zero: all are joined, and tested once.
fn zero_words(s: &[u8], at: usize, n: usize) -> bool
    requires { at + 4 * n ≤ length s.now }
    ensures { result ≡ zero_at s.now at (4 * n) }
{
    let mut all = 0;
    for i in 0..n {
        all |= word_at(s, at + 4 * i);
    }
    all == 0
}

// Whether the bytes of a range are zero: all are looked at, so that many are looked at together.
pub fn zero_between(s: &[u8], from: usize, to: usize) -> bool
    requires { to ≤ length s.now }
    ensures { result ≡ zero_at s.now from (to - from) }
{
    let mut all = 0;
    for i in from..to {
        all |= s[i];
    }
    all == 0
}
