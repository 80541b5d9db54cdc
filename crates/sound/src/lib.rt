// The soundness test: whether the disk of a part, whatever numbers it holds, is sound as 01 has it. Nothing is indexed or summed up
// before it is in range.

#![tactic(auto)]

mod active;
mod alone;
mod figures;
mod tickets;
mod waiting;

ghost use Rattle.std.specs.Prelude.{◌≡◌};
ghost use Rattle.part.specs.Held.{held, HoldsDisk};
ghost use Rattle.sound.specs.Seen.{seen_of};

use crate::active::actives_fit;
use crate::alone::Most;
use crate::figures::figures_hold;
use crate::waiting::waitings_hold;
use part::layout::PART_BYTES;
use rules::totals::Totals;

// Whether the disk of a part is sound: first its figures, then its active claims, then those that wait and the tickets of all. The
// claims are read where they stand: a disk by value would be copied. For the decision, the totals of a sound disk's active claims.
#[tactic(auto, using(crate::proofs::DiskLaws::seen_is), unfolding(crate::specs::Seen::walked_of))]
pub fn is_sound(s: &[u8; PART_BYTES]) -> Option<Totals>
    requires { HoldsDisk s.now }
    ensures { result ≡ seen_of (held s.now) }
{
    if !figures_hold(s) {
        return None;
    }
    let most = Most::on(s);
    let walked = actives_fit(s, &most)?;
    if !waitings_hold(s, &most, walked.marks) {
        return None;
    }
    Some(walked.totals)
}
