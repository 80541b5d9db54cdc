// The two rows of slots of a part: those of its active claims, and those of the claims that wait.

ghost use Rattle.std.specs.Prelude.{◌≡◌, ◌+◌, ◌≤◌};
ghost use Rattle.part.specs.Status.{slots_of, count_of};

use crate::layout::{ACTIVE_AT, ACTIVES_AT, WAITING_AT, WAITINGS_AT};

// Whether a claim is active, or waits.
#[derive(Clone, Copy, PartialEq, Eq, Debug)]
pub enum Status {
    Active,
    Waiting,
}

impl Status {
    // Where the slots of these claims begin.
    pub fn slots_at(self) -> usize
        ensures value { result ≡ slots_of self }
        ensures in_part { result + 352 ≤ 768 }
    {
        match self {
            Status::Active => ACTIVE_AT,
            Status::Waiting => WAITING_AT,
        }
    }

    // Where the number of these claims stands.
    pub fn count_at(self) -> usize
        ensures value { result ≡ count_of self }
        ensures in_head { result ≤ 12 }
    {
        match self {
            Status::Active => ACTIVES_AT,
            Status::Waiting => WAITINGS_AT,
        }
    }
}
