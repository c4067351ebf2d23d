// Judges groups of test vectors: bytes in, lines out.
#![tactic(auto)]

mod groups;
mod judge;
pub mod report;
#[cfg(test)]
mod tests;
mod verdict;
