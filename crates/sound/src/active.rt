// The active claims of a part: one walk, which tests each by itself and against the totals of those before it, and gathers what the
// decision and the walk over the waiting claims need.

ghost use Rattle.std.specs.Prelude.{◌≡◌};
ghost use Rattle.part.specs.Held.{held};
ghost use Rattle.sound.specs.Seen.{walked_of, Ready};

use crate::alone::Most;
use crate::tickets::Marks;
use law::limits::MOST_VALUE;
use num::signed::size;
use part::layout::PART_BYTES;
use part::read::{count_at, figures_at, slot_at};
use part::status::Status;
use rules::totals::Totals;

// What the walk over the active claims hands on: their totals, and the marks of their tickets.
#[derive(Clone, Copy, PartialEq, Eq, Debug, Default)]
pub struct Walked {
    pub totals: Totals,
    pub marks: Marks,
}

// Each active claim fits by itself, no two have entry N, and |promised| with the |d| of the active adds is in range.
pub(crate) fn actives_fit(s: &[u8; PART_BYTES], most: &Most) -> Option<Walked>
    requires { Ready s.now most.now }
    ensures { result ≡ walked_of (held s.now) }
{
    let mut walked = Walked::default();
    for i in 0..count_at(s, Status::Active) as usize {
        let x = slot_at(s, Status::Active, i);
        if !most.active_fits(x) || walked.totals.keep_out(x.method) {
            return None;
        }
        walked.totals = walked.totals.with_claim(x);
        walked.marks = walked.marks.with_ticket(x);
    }
    let promised = figures_at(s).promised;
    if u64::from(size(promised.value)) + walked.totals.sum <= u64::from(MOST_VALUE) {
        Some(walked)
    } else {
        None
    }
}
