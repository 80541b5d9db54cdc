// What two claims have to do with each other: their entry, what it lets pass and costs, and barring.

ghost use Rattle.std.specs.Prelude.{◌≡◌, ◌≤◌};
ghost use Rattle.rules.specs.Methods.{in_law};
ghost use Rattle.rules.specs.Pairs.{add_of, lets_by, cost_between, bars_by};

use crate::figures::Figures;
use crate::method::is_add;
use law::{Claim, Entry};
use num::signed::{gap, size};

// |d| of a claim that adds, 0 of any other.
pub(crate) fn add_part(x: Claim) -> u64
    ensures value { result ≡ add_of x }
    ensures upper_bound { result ≤ 2147483648 }
{
    if is_add(x.method) {
        u64::from(size(x.value))
    } else {
        0
    }
}

// Whether one active claim lets the requested one pass, which raises a reading's amount by so much.
pub fn lets(e: Entry, reading: bool, amount: u32, most: u32, raise: u64) -> bool
    requires { raise ≤ 8589934590 }
    ensures { result ≡ lets_by e reading amount most raise }
{
    match e {
        Entry::A | Entry::D => true,
        Entry::N => false,
        Entry::G => reading || u64::from(amount) + raise <= u64::from(most),
    }
}

// What the active claim x adds to the total of the requested claim c.
pub fn cost(f: &Figures, e: Entry, reading: bool, c: Claim, x: Claim) -> u64
    ensures value { result ≡ cost_between (in_law f.now) e reading c x }
    ensures upper_bound { result ≤ 4294967295 }
{
    match e {
        Entry::A | Entry::N => 0,
        Entry::D => gap(c.value, x.value),
        Entry::G => {
            if reading {
                f.gap_of(x.method, x.value)
            } else {
                0
            }
        }
    }
}

// Whether the waiting claim w bars one of a priority, by their entry.
pub fn bars(f: &Figures, w: Claim, e: Entry, priority: u32, now: u32, adds: u64) -> bool
    requires { adds ≤ 34359738368 }
    ensures { result ≡ bars_by (in_law f.now) now adds priority e w }
{
    priority <= w.priority && e != Entry::A && f.preconditions(w, now, adds)
}
