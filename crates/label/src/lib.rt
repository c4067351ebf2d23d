// The label of a save card: a record that cannot break the format's rules, written as its text and read from it.
#![tactic(auto)]

mod keybits;
pub mod label;
pub mod laws;
mod new;
mod reading;
mod writing;
