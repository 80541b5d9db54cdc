// The tickets of claims: their marks, by which most parts are found to have no two alike, and all of them two by two.

ghost use Rattle.std.specs.Prelude.{◌≡◌, ◌+◌, ◌<◌, get_or};
ghost use Rattle.law.specs.Sound.{claims_on};
ghost use Rattle.rules.specs.Rows.{no_claim};
ghost use Rattle.part.specs.Layout.{decode};
ghost use Rattle.part.specs.Held.{held, HoldsDisk};
ghost use Rattle.sound.specs.Tests.{tickets_differ};
ghost use Rattle.sound.specs.Seen.{with_ticket};

use law::Claim;
use num::bits::bit_of;
use part::layout::PART_BYTES;
use part::read::{count_at, slot_at};
use part::status::Status;

// Masks of the last six bits of tickets: those met, and those met again. The default is the marks of no tickets.
#[derive(Clone, Copy, PartialEq, Eq, Debug, Default)]
pub struct Marks {
    pub met: u64,
    pub again: u64,
}

impl Marks {
    // The marks with the ticket of one claim more.
    #[tactic(auto, unfolding(crate::specs::Seen::with_ticket))]
    pub(crate) fn with_ticket(self, c: Claim) -> Marks
        ensures { result ≡ with_ticket self c }
    {
        let bit = bit_of(c.ticket);
        Marks {
            met: self.met | bit,
            again: self.again | self.met & bit,
        }
    }
}

// No two claims have the same ticket.
pub(crate) fn apart(s: &[u8; PART_BYTES]) -> bool
    requires { HoldsDisk s.now }
    ensures { result ≡ tickets_differ (held s.now) }
{
    let n = count_at(s, Status::Active) as usize;
    let all = n + count_at(s, Status::Waiting) as usize;
    for i in 0..all {
        let x = claim_on(s, n, i);
        for j in i + 1..all {
            if x.ticket == claim_on(s, n, j).ticket {
                return false;
            }
        }
    }
    true
}

// Claim i of a part with n active ones: these first, then those that wait.
#[tactic(auto, using(crate::proofs::DiskLaws::claims_read))]
fn claim_on(s: &[u8; PART_BYTES], n: usize, i: usize) -> Claim
    requires holds_disk { HoldsDisk s.now }
    requires n_value { n ≡ (decode s.now).actives }
    requires i_bound { i < n + (decode s.now).waitings }
    ensures { result ≡ get_or (claims_on (held s.now)) i no_claim }
{
    if i < n {
        return slot_at(s, Status::Active, i);
    }
    slot_at(s, Status::Waiting, i - n)
}
