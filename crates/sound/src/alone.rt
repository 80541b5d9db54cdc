// A claim by itself: its ranges, 16 to 18, told and amount. What a claim may have depends on its method: we look up a bound and take no
// branch, so nothing can be mispredicted.

ghost use Rattle.std.specs.Prelude.{◌≡◌};
ghost use Rattle.law.specs.Entries.{kind_at, kind_of};
ghost use Rattle.law.specs.DiskType.{disk_table};
ghost use Rattle.part.specs.Layout.{decode};
ghost use Rattle.part.specs.Held.{HoldsDisk};
ghost use Rattle.sound.specs.Tests.{Bounds, if_reading, value_size_by, alone_fits, active_by, waiting_by};

use law::Claim;
use law::limits::MOST_PRIORITY;
use num::signed::{size, to_word};
use part::layout::PART_BYTES;
use part::read::{clock_at, figures_at, next_at};
use rules::method::{
    ERRORS_AT, FLAGS_AT, MEASURED_AT, TOLD_AT, bounds, is_known, is_reading, sets_state,
};

// How large the fields of a claim may be on a disk, rows by method; and the next ticket, which its ticket must be below.
#[derive(Drop)]
pub(crate) struct Most {
    next: u32,
    rows: [u32; 35],
    ghost fits: { Bounds rows },
}

impl Most {
    ghost use Rattle.sound.specs.Seen.{most_in};

    // Those of the disk of a part.
    pub(crate) fn on(s: &[u8; PART_BYTES]) -> Most
        requires { HoldsDisk s.now }
        ensures rows { result.rows ≡ most_in s.now }
        ensures next { result.next ≡ (decode s.now).next }
    {
        let f = figures_at(s);
        Most {
            next: next_at(s),
            rows: bounds(f.used.limit, f.promised.limit, clock_at(s)),
        }
    }

    // What an active claim and a waiting one both pass: a known method; ticket and priority in range; and each of value, error, second
    // of measuring and flag within its bound.
    #[tactic(auto, using(crate::proofs::AloneLaws::alone_laws), unfolding(crate::specs::Tests::alone_fits))]
    fn alone(&self, c: Claim) -> bool
        ensures { result ≡ alone_fits self.now.rows self.now.next c }
    {
        let m = c.method as usize;
        is_known(c.method)
            && 1 <= c.ticket
            && c.ticket < self.next
            && c.priority <= MOST_PRIORITY
            && value_size(c) <= self.rows[m]
            && c.error <= self.rows[ERRORS_AT + m]
            && c.measured <= self.rows[MEASURED_AT + m]
            && c.flag <= self.rows[FLAGS_AT + m]
    }

    // An active claim: a reading's told is in range and its amount ≤ its limit; a write has neither.
    #[tactic(auto, using(crate::proofs::AloneLaws::told_laws), unfolding(crate::specs::Tests::active_by))]
    pub(crate) fn active_fits(&self, c: Claim) -> bool
        ensures { result ≡ active_by self.now.rows self.now.next c }
    {
        let m = c.method as usize;
        self.alone(c)
            && size(c.told) <= self.rows[TOLD_AT + m]
            && c.amount <= if_reading(c.method, c.error, 0)
    }

    // A waiting claim: told and amount are 0.
    #[tactic(auto, unfolding(crate::specs::Tests::waiting_by))]
    pub(crate) fn waiting_fits(&self, c: Claim) -> bool
        ensures { result ≡ waiting_by self.now.rows self.now.next c }
    {
        self.alone(c) && size(c.told) == 0 && c.amount == 0
    }
}

// One number for a reading, another for a write.
fn if_reading(m: u32, reading: u32, write: u32) -> u32
    ensures { result ≡ if_reading (kind_at disk_table m) reading write }
{
    if is_reading(m) { reading } else { write }
}

// How large a value is: a state as its word, so that a negative one is far above any state.
fn value_size(c: Claim) -> u32
    ensures { result ≡ value_size_by (kind_of disk_table c) c.value }
{
    if sets_state(c.method) {
        to_word(c.value)
    } else {
        size(c.value)
    }
}
