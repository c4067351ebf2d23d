// Test vectors as text: a group is a key, a plain block and the cipher block that it becomes.
#![tactic(auto)]

pub mod group;
pub mod parse;
#[cfg(test)]
mod tests;
