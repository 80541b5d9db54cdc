// The law of one disk. Its rules are definitions, in specs/. Here stand only the types and the numbers that the rules and the code
// above them share.

#![tactic(auto)]

pub mod limits;

// An attribute of a disk: its value, its stamp, the amount of error it carries, and the limit of that
// amount.
#[derive(Clone, Copy, PartialEq, Eq, Debug)]
pub struct Attr {
    pub value: i32,
    pub stamp: u32,
    pub amount: u32,
    pub limit: u32,
}

// A claim on a method of a disk. `error` is a write's own error or a reading's stated limit;
// `told` and `amount` are 0 except in an active reading.
#[derive(Clone, Copy, PartialEq, Eq, Debug, Default)]
pub struct Claim {
    pub ticket: u32,
    pub method: u32,
    pub priority: u32,
    pub flag: u32,
    pub measured: u32,
    pub value: i32,
    pub error: u32,
    pub told: i32,
    pub amount: u32,
}

// An entry of the compatibility table: always, never, the distance of two sets, the gap between a
// reading and a write.
#[derive(Clone, Copy, PartialEq, Eq, Debug)]
pub enum Entry {
    A,
    N,
    D,
    G,
}
