// The figures of a disk: ranges, amounts and stamps, and the next ticket.

ghost use Rattle.std.specs.Prelude.{◌≡◌};
ghost use Rattle.law.specs.Types.{a0, a2};
ghost use Rattle.rules.specs.Methods.{in_law};
ghost use Rattle.part.specs.Held.{held, HoldsDisk};
ghost use Rattle.sound.specs.Tests.{figure_fits, figures_fit, figures_on};

use law::Attr;
use law::limits::{LAST_TICKET, MOST_ERROR, MOST_STATE, MOST_VALUE};
use num::signed::within;
use part::layout::PART_BYTES;
use part::read::{clock_at, figures_at, next_at};
use rules::figures::Figures;

// The ticket behind the last one: no ticket is left to hand out.
const MOST_NEXT: u32 = LAST_TICKET + 1;

// The figures of a part.
pub(crate) fn figures_hold(s: &[u8; PART_BYTES]) -> bool
    requires { HoldsDisk s.now }
    ensures { result ≡ figures_on (held s.now) }
{
    figures_fit(&figures_at(s), clock_at(s), next_at(s))
}

// The next ticket and the three figures.
#[tactic(auto, unfolding(crate::specs::Tests::figure_fits, crate::specs::Tests::figures_fit))]
fn figures_fit(f: &Figures, clock: u32, next: u32) -> bool
    ensures { result ≡ figures_fit (in_law f.now) clock next }
{
    1 <= next
        && next <= MOST_NEXT
        && figure_fits(f.used, clock)
        && figure_fits(f.promised, clock)
        && state_fits(f.state, clock)
}

// A figure other than the state: value and limit in range, amount ≤ limit, stamp ≤ clock.
#[tactic(auto, unfolding(crate::specs::Tests::figure_fits))]
fn figure_fits(a: Attr, clock: u32) -> bool
    ensures { result ≡ figure_fits a0 clock a }
{
    within(a.value, MOST_VALUE) && a.limit <= MOST_ERROR && a.amount <= a.limit && a.stamp <= clock
}

// The state: a code 0 to 255 with limit 0.
#[tactic(auto, unfolding(crate::specs::Tests::figure_fits))]
fn state_fits(a: Attr, clock: u32) -> bool
    ensures { result ≡ figure_fits a2 clock a }
{
    0 <= a.value
        && within(a.value, MOST_STATE)
        && a.limit == 0
        && a.amount <= a.limit
        && a.stamp <= clock
}
