// Numbers in lent bytes: words, signed words and their metric, bits of a mask, the open word.

#![tactic(auto)]

pub mod bits;
pub mod opened;
pub mod signed;
pub mod word;
