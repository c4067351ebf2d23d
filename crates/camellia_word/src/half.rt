// A half as two words, the left one its upper 32 bits.
ghost use Rattle.std.specs.Prelude.{◌≡◌};
ghost use Rattle.std.proofs.Common.{rules};
ghost use Rattle.camellia_rounds.specs.Parts.{whole};
ghost use Rattle.camellia_word.specs.Words.{rotated};

use crate::sbox::{substitute_left, substitute_right};
use camellia_rounds::half::Half;
use camellia_rounds::parts::Parts;

#[derive(Clone, Copy)]
pub struct WordHalf(Parts);

impl From<u64> for WordHalf {
    ghost from_gives = { λ x s. whole s.0 ≡ x };

    fn from(x: u64) -> Self {
        WordHalf(Parts::from(x))
    }
}

impl From<WordHalf> for u64 {
    ghost from_gives = { λ s x. x ≡ whole s.0 };

    fn from(s: WordHalf) -> Self {
        s.0.into()
    }
}

// P: four times a word takes the other, rotated by whole bytes, and then the words change places.
fn spread(left: u32, right: u32) -> Parts
    ensures { result ≡ rotated left right }
{
    let left = left ^ right.rotate_left(8);
    let right = right ^ left.rotate_left(16);
    let left = left ^ right.rotate_right(8);
    let right = right ^ left.rotate_right(8);
    Parts {
        left: right,
        right: left,
    }
}

impl Half for WordHalf {
    ghost value = { λ s. whole s.0 };

    ghost made = { Prim.search rules };

    ghost told = { Prim.search rules };

    fn xor(self, other: Self) -> Self {
        WordHalf(Parts {
            left: self.0.left ^ other.0.left,
            right: self.0.right ^ other.0.right,
        })
    }

    fn ps(self) -> Self {
        let WordHalf(Parts { left, right }) = self;
        WordHalf(spread(substitute_left(left), substitute_right(right)))
    }
}
