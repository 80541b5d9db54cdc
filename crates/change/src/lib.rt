// A disk changed in the bytes of its part: the end of a claim, a claim that waits, a grant.

#![tactic(auto)]

pub mod grant;
pub mod moves;
