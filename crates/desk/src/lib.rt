// The desk: one call on lent bytes. The record and the board's frame, a call on the part of an open disk, and `step`.

#![tactic(auto)]

pub mod board;
mod find;
pub mod record;
pub mod serve;
