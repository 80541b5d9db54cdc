// The part of a disk in lent bytes: the disk by value that it holds, and back.

#![tactic(auto)]

pub mod layout;
pub mod read;
pub mod status;
pub mod whole;
pub mod write;
