// The byte path: a half is eight bytes, and s1 is the only table.
#![tactic(auto)]

pub mod half;
mod sbox;

use camellia_rounds::cipher::Camellia;
use half::ByteHalf;

pub type ByteCamellia = Camellia<ByteHalf>;
