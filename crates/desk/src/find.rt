// The claim of a ticket on a part, found where it stands.

ghost use Rattle.std.specs.Prelude.{◌≡◌, take};
ghost use Rattle.rules.specs.Rows.{found_in};
ghost use Rattle.part.specs.Layout.{decode};
ghost use Rattle.part.specs.Held.{HoldsDisk};
ghost use Rattle.part.specs.Status.{count_in, places_in};

use part::layout::{PART_BYTES, SLOTS_BYTES};
use part::read::count_at;
use part::status::Status;
use slots::find_in;

// The place of a ticket among the active claims, or among those that wait, if one has it.
pub(crate) fn find(s: &[u8; PART_BYTES], status: Status, ticket: u32) -> Option<usize>
    requires { HoldsDisk s.now }
    ensures { result ≡ found_in ticket (take (count_in status (decode s.now)) (places_in status (decode s.now))) }
{
    let n = count_at(s, status) as usize;
    let at = status.slots_at();
    find_in(&s[at..at + SLOTS_BYTES], n, ticket)
}
