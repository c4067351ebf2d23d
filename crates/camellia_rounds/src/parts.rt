// FL and its inverse on the two 32-bit parts of a half.
ghost use Rattle.std.specs.Prelude.{◌≡◌};
ghost use Rattle.camellia_rounds.specs.Parts.{whole, parts_of, fl_of, fl_inverse_of};

#[derive(Clone, Copy)]
pub struct Parts {
    pub left: u32,
    pub right: u32,
}

impl From<u64> for Parts {
    ghost from_gives = { λ x s. s ≡ parts_of x };

    fn from(x: u64) -> Self {
        Parts {
            left: (x >> 32) as u32,
            right: (x & 0xffff_ffff) as u32,
        }
    }
}

impl From<Parts> for u64 {
    ghost from_gives = { λ s x. x ≡ whole s };

    fn from(s: Parts) -> u64 {
        (s.left as u64) << 32 | s.right as u64
    }
}

impl Parts {
    pub fn fl(self, k: Parts) -> Parts
        ensures { result ≡ fl_of self k }
    {
        let right = (self.left & k.left).rotate_left(1) ^ self.right;
        Parts {
            left: (right | k.right) ^ self.left,
            right,
        }
    }

    pub fn fl_inverse(self, k: Parts) -> Parts
        ensures { result ≡ fl_inverse_of self k }
    {
        let left = (self.right | k.right) ^ self.left;
        Parts {
            left,
            right: (left & k.left).rotate_left(1) ^ self.right,
        }
    }
}
