// The word path: a half is two 32-bit words, each substitution is a table, and P is four rotations.
#![tactic(auto)]

pub mod half;
mod sbox;

use camellia_rounds::cipher::Camellia;
use half::WordHalf;

pub type WordCamellia = Camellia<WordHalf>;
