// What claims come to together: the sum of |d| over the adds, and the masks of what they set, add to and read. By the masks alone a
// decision knows whether one of the claims has an entry other than A with a method, and whether one has entry N.

ghost use Rattle.std.specs.Prelude.{◌≡◌, ◌≤◌};
ghost use Rattle.rules.specs.Totals.{with_claim, have_say, keep_out};

use crate::method::masks_of;
use crate::pair::add_part;
use law::Claim;

// The default is the totals of no claims.
#[derive(Clone, Copy, PartialEq, Eq, Debug, Default)]
pub struct Totals {
    pub sum: u64,
    pub does: u32,
}

impl Totals {
    // The totals with one claim more.
    pub fn with_claim(self, c: Claim) -> Totals
        requires { self.sum ≤ 17179869184 }
        ensures { result ≡ with_claim self c }
    {
        Totals {
            sum: self.sum + add_part(c),
            does: self.does | masks_of(c.method).does,
        }
    }

    // Whether one of the claims has an entry other than A with method m.
    pub fn have_say(self, m: u32) -> bool
        ensures { result ≡ have_say self m }
    {
        self.does & masks_of(m).say != 0
    }

    // Whether one of the claims has entry N with method m.
    pub fn keep_out(self, m: u32) -> bool
        ensures { result ≡ keep_out self m }
    {
        self.does & masks_of(m).out != 0
    }
}
