// The functions of a 64-bit half for the long path: F by eight tables of 64-bit numbers, FL and its inverse on 32-bit parts.
#![tactic(auto)]

pub mod half;
mod table;
