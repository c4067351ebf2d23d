// Frames of any store, sealed under a pair of engines of any kind.
#![tactic(auto)]

pub mod frames;
pub mod keys;
