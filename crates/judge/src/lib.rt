// A claim judged on the lent part of its disk: the figures and the claims are read where they stand.

#![tactic(auto)]

ghost use Rattle.std.specs.Prelude.{◌≡◌};
ghost use Rattle.law.specs.Calls.{claim as law_claim};
ghost use Rattle.law.specs.DiskType.{disk_table};
ghost use Rattle.rules.specs.Answers.{answer_by, NewOn, request_of};
ghost use Rattle.rules.specs.Totals.{totals_of};
ghost use Rattle.part.specs.Held.{held, HoldsSound};

use crate::decision::decide;
use answer::{Answer, Refusal};
use law::Claim;
use law::limits::PLACES;
use num::signed::narrow;
use part::layout::PART_BYTES;
use part::read::{clock_at, count_at, figures_at};
use part::status::Status;
use rules::fields::checked;
use rules::totals::Totals;

pub mod decision;

// The answer to the new claim c at that second, on the disk of a part whose active claims have these totals. Nothing is changed.
pub fn judged(s: &[u8; PART_BYTES], c: Claim, second: u32, t: Totals) -> Answer
    requires holds_sound { HoldsSound s.now }
    requires new_on { NewOn (held s.now) c }
    requires t_value { t ≡ totals_of (held s.now).core.active }
    ensures { result ≡ answer_by (law_claim disk_table (held s.now) (request_of second c)) }
{
    let f = figures_at(s);
    if let Err(r) = checked(&f, c, second, clock_at(s)) {
        return Answer::Refused(r);
    }
    let waitings = count_at(s, Status::Waiting);
    if let Some(total) = decide(s, waitings as usize, c, second, t) {
        return Answer::Granted(c.ticket, narrow(f.told(c.method)), total as u32);
    }
    if PLACES <= waitings {
        return Answer::Refused(Refusal::Full);
    }
    Answer::Waits(c.ticket)
}
