// Lines of text with a name and a value, and values in hexadecimal and in decimal.
#![tactic(auto)]

pub mod decimal;
pub mod hex;
pub mod line;
