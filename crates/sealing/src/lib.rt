// Sealing a frame: XTS over any engine, one text for all of them; pairs of keys, and the guard that zeroes lent ones.
#![tactic(auto)]

pub mod laws;
pub mod pair;
pub mod wiped;
mod xts;
