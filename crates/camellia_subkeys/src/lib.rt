// The key schedule of the long path: the subkeys by groups of six rounds, with two of the four whitening keys folded in.
#![tactic(auto)]

mod fold;
pub mod keys;
mod plans;
mod schedule;
mod subkeys;
