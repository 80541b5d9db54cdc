// The decision on a claim: preconditions, barring, the lock step and the place. The claims of the disk are read where they stand
// in its part; the totals of the active ones are handed in.

ghost use Rattle.std.specs.Prelude.{◌≡◌, ◌≤◌, IfSome, take};
ghost use Rattle.law.specs.Base.{any_of};
ghost use Rattle.rules.specs.Pairs.{core_of};
ghost use Rattle.rules.specs.Totals.{totals_of};
ghost use Rattle.rules.specs.Disks.{figures_in, figures_at};
ghost use Rattle.part.specs.Layout.{decode};
ghost use Rattle.part.specs.Held.{HoldsDisk};
ghost use Rattle.judge.specs.Decisions.{bars_of, actives_in, locked, decided};

use law::Claim;
use law::limits::PLACES;
use part::layout::PART_BYTES;
use part::read::{count_at, figures_at, slot_at};
use part::status::Status;
use rules::figures::Figures;
use rules::method::{entry, is_reading};
use rules::pair::{bars, cost, lets};
use rules::totals::Totals;

// The totals of the active claims.
pub fn totals_at(s: &[u8; PART_BYTES]) -> Totals
    requires { HoldsDisk s.now }
    ensures { result ≡ totals_of (actives_in (decode s.now)) }
{
    let mut t = Totals::default();
    for i in 0..count_at(s, Status::Active) as usize {
        t = t.with_claim(slot_at(s, Status::Active, i));
    }
    t
}

// Whether one of the first waiting claims bars c.
fn barred(s: &[u8; PART_BYTES], f: &Figures, ahead: usize, c: Claim, second: u32, adds: u64) -> bool
    requires holds_disk { HoldsDisk s.now }
    requires figures { f.now ≡ figures_at (decode s.now) }
    requires ahead_bound { ahead ≤ 8 }
    requires adds_bound { adds ≤ 17179869184 }
    ensures { result ≡ any_of (bars_of (figures_in (decode s.now)) second adds c) (take ahead (decode s.now).waiting) }
{
    for j in 0..ahead {
        let w = slot_at(s, Status::Waiting, j);
        if bars(f, w, entry(w.method, c.method), c.priority, second, adds) {
            return true;
        }
    }
    false
}

// The lock step over the active claims: what they add to the total of c, if each lets it pass. The table is looked up for c with each
// active claim, unless their masks say that every entry is A.
fn lock_step(s: &[u8; PART_BYTES], f: &Figures, c: Claim, t: Totals) -> Option<u64>
    requires holds_disk { HoldsDisk s.now }
    requires figures { f.now ≡ figures_at (decode s.now) }
    requires t_value { t ≡ totals_of (actives_in (decode s.now)) }
    ensures value { result ≡ locked (figures_in (decode s.now)) c (actives_in (decode s.now)) }
    ensures sum_bound { IfSome result (λ sum. sum ≤ 34359738360) }
{
    let m = c.method;
    if !t.have_say(m) {
        return Some(0);
    }
    let reading = is_reading(m);
    let raise = f.raise_of(c);
    let mut sum = 0;
    for i in 0..count_at(s, Status::Active) as usize {
        let x = slot_at(s, Status::Active, i);
        let e = entry(x.method, m);
        if !lets(e, reading, x.amount, x.error, raise) {
            return None;
        }
        sum += cost(f, e, reading, c, x);
    }
    Some(sum)
}

// The decision on c at a second, behind the first `ahead` waiting claims: its total, if it is granted. It is where there is a free
// place, its preconditions hold, none ahead bars it, and the lock step passes (the starting amount and what each active claim adds, no
// entry N, each active reading within its own limit). All four must pass, so their order makes no difference; the place comes first
// because it is the cheapest to look for.
pub fn decide(s: &[u8; PART_BYTES], ahead: usize, c: Claim, second: u32, t: Totals) -> Option<u64>
    requires holds_disk { HoldsDisk s.now }
    requires ahead_bound { ahead ≤ 8 }
    requires t_value { t ≡ totals_of (actives_in (decode s.now)) }
    ensures { result
        ≡ decided (core_of (figures_in (decode s.now)) second (actives_in (decode s.now))) (take ahead (decode s.now).waiting) c }
{
    if PLACES <= count_at(s, Status::Active) {
        return None;
    }
    let f = figures_at(s);
    if !f.preconditions(c, second, t.sum) {
        return None;
    }
    if barred(s, &f, ahead, c, second, t.sum) {
        return None;
    }
    let sum = lock_step(s, &f, c, t)?;
    let total = f.start(c.method, c.error) + sum;
    if total <= u64::from(f.limit(c.method, c.error)) {
        Some(total)
    } else {
        None
    }
}
