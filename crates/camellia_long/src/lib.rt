// Camellia by 64-bit tables, one block or the eight blocks of a frame at a time.
#![tactic(auto)]

mod blocks;
pub mod cipher;
pub mod cipher_engine;
mod zero;
