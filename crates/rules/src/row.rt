// A list of at most eight claims: eight places and a count, with every place past the count clear. specs/Rows says what is kept,
// specs/RowLaws what loops over the places use. Here: what stands in a clear place, and the order of the pass.
ghost use Rattle.std.specs.Prelude.{◌≡◌, ◌+◌, ◌*◌};
ghost use Rattle.law.specs.Calls.{before};
ghost use Rattle.rules.specs.Rows.{no_claim};

use law::Claim;

// What stands in a place that holds no claim.
pub fn no_claim() -> Claim
    ensures { result ≡ no_claim }
{
    Claim::default()
}

// A priority and a ticket in one number, the priority first.
fn joined(priority: u32, ticket: u32) -> u64
    ensures { result ≡ priority * 4_294_967_296 + ticket }
{
    u64::from(priority) * 4294967296 + u64::from(ticket)
}

// Whether `x` comes before `y` in the pass: higher priority first, then lower ticket. One comparison decides, each ticket joined
// to the other's priority: no branch depends on the priorities.
pub fn before(x: Claim, y: Claim) -> bool
    ensures { result ≡ before x y }
{
    joined(y.priority, x.ticket) < joined(x.priority, y.ticket)
}
