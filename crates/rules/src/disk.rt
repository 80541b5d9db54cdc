// A disk by value: its clock, the next ticket, its figures, and its claims, of which the first so many
// places of either array hold the active and the waiting ones. And the disk that an open leaves.

ghost use Rattle.std.specs.Prelude.{◌≡◌};
ghost use Rattle.law.specs.Calls.{new_attr, opened as law_opened};
ghost use Rattle.rules.specs.Disks.{by_value};

use crate::row::no_claim;
use law::{Attr, Claim};

#[derive(Clone, Copy)]
pub struct Disk {
    pub clock: u32,
    pub next: u32,
    pub actives: u32,
    pub waitings: u32,
    pub used: Attr,
    pub promised: Attr,
    pub state: Attr,
    pub active: [Claim; 8],
    pub waiting: [Claim; 8],
}

// The opened disk: no claims, and every figure 0 at second now.
pub fn opened(now: u32, l0: u32, l1: u32) -> Disk
    ensures { result ≡ by_value (law_opened now l0 l1) }
{
    let none = no_claim();
    Disk {
        clock: now,
        next: 1,
        actives: 0,
        waitings: 0,
        used: blank(now, l0),
        promised: blank(now, l1),
        state: blank(now, 0),
        active: [none; 8],
        waiting: [none; 8],
    }
}

// A figure of an opened disk.
fn blank(now: u32, limit: u32) -> Attr
    ensures { result ≡ new_attr now limit }
{
    Attr {
        value: 0,
        stamp: now,
        amount: 0,
        limit,
    }
}
