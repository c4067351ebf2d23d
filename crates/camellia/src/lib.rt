// Camellia as RFC 3713 defines it. The definitions are in specs/; the functions here carry what is proved of them.
#![tactic(auto)]

pub mod laws;
pub mod plan;
