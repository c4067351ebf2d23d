// The lines of a label, taken apart and put together.
#![tactic(auto)]

pub mod cut;
pub mod lines;
pub mod write;
