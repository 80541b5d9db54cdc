// The rules of one claim and of two, in code, and the disk by value that the bytes of a part mean. Functions take claims and
// numbers, never a list; the walks over the claims of a disk are the judge's and the soundness test's.

#![tactic(auto)]

pub mod disk;
pub mod fields;
pub mod figures;
pub mod method;
pub mod pair;
pub mod row;
pub mod totals;
