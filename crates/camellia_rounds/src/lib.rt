// Camellia over any form of a 64-bit half: the tables of subkeys, the key schedule, the rounds and the cipher.
#![tactic(auto)]

pub mod bytes;
pub mod cipher;
pub mod cipher_engine;
mod expand;
pub mod half;
pub mod parts;
mod rounds;
pub mod sbox;
mod schedule;
pub mod sources;
pub mod subkey;
mod tables;
