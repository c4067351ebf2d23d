ghost use Rattle.std.specs.Prelude.{◌≡◌, ℕ};
ghost use Rattle.camellia.specs.Numbers.{◌⊕◌};
ghost use Rattle.camellia.specs.Functions.{PS, F, FL, FLINV};

use crate::parts::Parts;

// A 64-bit half of a block, in the form in which a path computes. It is made of a number and gives it back.
pub trait Half: Copy + From<u64> + Into<u64> {
    // the number that a half is
    ghost value: { Self → ℕ };

    fn xor(self, other: Self) -> Self
        ensures { value result ≡ value self ⊕ value other };

    // S on each byte, and then P
    fn ps(self) -> Self
        ensures { value result ≡ PS (value self) };

    ghost made: { (x : ℕ) (s : Self) → Self.from_gives x s → value s ≡ x };

    ghost told: { (s : Self) (x : ℕ) → Self.converts s x → x ≡ value s };

    #[tactic(auto, unfolding(camellia::specs::Functions::F))]
    final fn f(self, key: Self) -> Self
        ensures { value result ≡ F (value self) (value key) }
    {
        self.xor(key).ps()
    }

    final fn fl(self, key: Self) -> Self
        ensures { value result ≡ FL (value self) (value key) }
    {
        let (x, k): (u64, u64) = (self.into(), key.into());
        Self::from(Parts::from(x).fl(Parts::from(k)).into())
    }

    final fn fl_inverse(self, key: Self) -> Self
        ensures { value result ≡ FLINV (value self) (value key) }
    {
        let (y, k): (u64, u64) = (self.into(), key.into());
        Self::from(Parts::from(y).fl_inverse(Parts::from(k)).into())
    }
}
