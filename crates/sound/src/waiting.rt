// The waiting claims of a part, in one walk over each by itself, which marks their tickets, and one over their order; and what is
// left to test behind the active claims.

ghost use Rattle.std.specs.Prelude.{◌≡◌};
ghost use Rattle.law.specs.Base.{every_pair, all_true};
ghost use Rattle.law.specs.Calls.{before as law_before};
ghost use Rattle.part.specs.Held.{held, HoldsDisk};
ghost use Rattle.sound.specs.Tests.{rest_tests};
ghost use Rattle.sound.specs.Seen.{marks_of, waited_of, Ready};

use crate::alone::Most;
use crate::tickets::{Marks, apart};
use part::layout::PART_BYTES;
use part::read::{count_at, slot_at};
use part::status::Status;
use rules::row::before;

// The waiting claims fit, they stand in the pass's order, and no two claims have the same ticket: the tickets are compared two by
// two only where their last six bits coincide.
#[tactic(auto, using(crate::proofs::DiskLaws::all_differ), unfolding(crate::specs::Seen::waited_of))]
pub(crate) fn waitings_hold(s: &[u8; PART_BYTES], most: &Most, marks: Marks) -> bool
    requires ready { Ready s.now most.now }
    requires marks_value { marks ≡ marks_of (held s.now).core.active }
    ensures { result ≡ all_true (rest_tests (held s.now)) }
{
    let Some(all) = waitings_fit(s, most, marks) else {
        return false;
    };
    in_order(s) && (all.again == 0 || apart(s))
}

// Each waiting claim fits by itself: then the marks of their tickets, added to those handed in.
fn waitings_fit(s: &[u8; PART_BYTES], most: &Most, marks: Marks) -> Option<Marks>
    requires { Ready s.now most.now }
    ensures { result ≡ waited_of (held s.now) marks }
{
    let mut all = marks;
    for i in 0..count_at(s, Status::Waiting) as usize {
        let x = slot_at(s, Status::Waiting, i);
        if !most.waiting_fits(x) {
            return None;
        }
        all = all.with_ticket(x);
    }
    Some(all)
}

// The waiting claims stand in the pass's order. Each is compared with the next one alone: what comes before the next comes before
// all behind it.
fn in_order(s: &[u8; PART_BYTES]) -> bool
    requires { HoldsDisk s.now }
    ensures { result ≡ every_pair law_before (held s.now).waiting }
{
    for i in 1..count_at(s, Status::Waiting) as usize {
        let x = slot_at(s, Status::Waiting, i - 1);
        let y = slot_at(s, Status::Waiting, i);
        if !before(x, y) {
            return false;
        }
    }
    true
}
