// Eight slots of claims in lent bytes, changed where they stand: a claim is put, found, taken out or queued, and the readings among
// them are raised.

#![tactic(auto)]

ghost use Rattle.std.specs.Prelude.{not, false, true, ◌≡◌, ◌+◌, ◌-◌, ◌≤◌, ◌<◌, take, get_or, set};
ghost use Rattle.rules.specs.Rows.{no_claim, Row, RowIs, first_of, found_in, remove_at};
ghost use Rattle.law.specs.Calls.{before, queue};
ghost use Rattle.law.specs.Granting.{put_told};
ghost use Rattle.rules.specs.Pairs.{lets_by};
ghost use Rattle.part.specs.Layout.{slots};
ghost use Rattle.slots.specs.Slots.{Slots, map_to, raise_by, raise_with, Raisable};

use law::{Claim, Entry};
use num::word::put_word;
use part::layout::{SLOT_AMOUNT, SLOT_BYTES};
use part::read::claim_at;
use part::write::put_claim;
use rules::method::entry;
use rules::row::{before, no_claim};

// The claim of a slot.
fn slot_at(row: &[u8], i: usize) -> Claim
    requires slots { Slots row.now }
    requires i_bound { i < 8 }
    ensures { result ≡ get_or (slots 8 row.now) i no_claim }
{
    claim_at(row, SLOT_BYTES * i)
}

// Puts a claim into a slot.
pub fn put_slot(row: &mut [u8], i: usize, c: Claim)
    requires slots { Slots row.old }
    requires i_bound { i < 8 }
    ensures slots_2 { Slots row.new }
    ensures row_after { slots 8 row.new ≡ set (slots 8 row.old) i c }
{
    put_claim(row, SLOT_BYTES * i, c);
}

// The place of the claim of that ticket among the first n, if one has it.
pub fn find_in(row: &[u8], n: usize, ticket: u32) -> Option<usize>
    requires slots { Slots row.now }
    requires row { Row (slots 8 row.now) n }
    ensures { result ≡ found_in ticket (take n (slots 8 row.now)) }
{
    for i in 0..n {
        if slot_at(row, i).ticket == ticket {
            return Some(i);
        }
    }
    None
}

// Takes the claim at `at` out of the first n: those behind it move up by one, and the last place is cleared.
pub fn take_out(row: &mut [u8], n: usize, at: usize)
    requires slots { Slots row.old }
    requires row { Row (slots 8 row.old) n }
    requires at_lt_n { at < n }
    ensures slots_2 { Slots row.new }
    ensures row_is { RowIs (slots 8 row.new) (n - 1) (remove_at at (take n (slots 8 row.old))) }
{
    let last = n - 1;
    for i in at..last {
        let x = slot_at(row, i + 1);
        put_slot(row, i, x);
    }
    put_slot(row, last, no_claim());
}

// Clears the places from k up to n, the last one first.
pub fn clear_from(row: &mut [u8], k: usize, n: usize)
    requires slots { Slots row.old }
    requires row { Row (slots 8 row.old) n }
    requires k_le_n { k ≤ n }
    ensures slots_2 { Slots row.new }
    ensures row_is { RowIs (slots 8 row.new) k (take k (slots 8 row.old)) }
{
    for m in (k..n).rev() {
        put_slot(row, m, no_claim());
    }
}

// The place of `c` in the pass's order: that of the first claim which does not come before it.
fn place(row: &[u8], n: usize, c: Claim) -> usize
    requires slots { Slots row.now }
    requires row { Row (slots 8 row.now) n }
    ensures { (result ≡ first_of (λ w. not (before w c)) (take n (slots 8 row.now))) × (result ≤ n) }
{
    for i in 0..n {
        if !before(slot_at(row, i), c) {
            return i;
        }
    }
    n
}

// Puts `c` among the first n at its place in the pass's order: the claims from that place on move down by one.
pub fn queue_in(row: &mut [u8], n: usize, c: Claim)
    requires slots { Slots row.old }
    requires row { Row (slots 8 row.old) n }
    requires n_bound { n < 8 }
    ensures slots_2 { Slots row.new }
    ensures row_is { RowIs (slots 8 row.new) (n + 1) (queue c (take n (slots 8 row.old))) }
{
    let mut y = c;
    for i in place(row, n, c)..n {
        let x = slot_at(row, i);
        put_slot(row, i, y);
        y = x;
    }
    put_slot(row, n, y);
}

// Puts another amount into a slot.
fn put_amount(row: &mut [u8], i: usize, amount: u32)
    requires slots { Slots row.old }
    requires i_bound { i < 8 }
    ensures slots_2 { Slots row.new }
    ensures row_after { let x = get_or (slots 8 row.old) i no_claim in
        slots 8 row.new ≡ set (slots 8 row.old) i (put_told x x.told amount) }
{
    put_word(row, SLOT_BYTES * i + SLOT_AMOUNT, amount);
}

// The amount of the active claim x after the grant of a write: e is their entry, and raise is the write's own error and gap, by which
// the amount of a reading grows.
fn raised(x: Claim, e: Entry, raise: u64) -> u32
    requires { lets_by e false x.amount x.error raise ≡ true }
    ensures { result ≡ (raise_by x e raise).amount }
{
    match e {
        Entry::A | Entry::N | Entry::D => x.amount,
        Entry::G => (u64::from(x.amount) + raise) as u32,
    }
}

// Raises the amounts of the first n claims for the grant of a write of method m, each by their entry.
pub fn raise_all(row: &mut [u8], n: usize, m: u32, raise: u64)
    requires slots { Slots row.old }
    requires n_bound { n ≤ 8 }
    requires raisable { Raisable (slots 8 row.old) n m raise }
    ensures slots_2 { Slots row.new }
    ensures row_after { slots 8 row.new ≡ map_to n (raise_with m raise) (slots 8 row.old) }
{
    for i in 0..n {
        let x = slot_at(row, i);
        put_amount(row, i, raised(x, entry(x.method, m), raise));
    }
}
