// A half as eight bytes, the most significant first.
ghost use Rattle.std.specs.Prelude.{◌≡◌};
ghost use Rattle.std.proofs.Common.{rules};
ghost use Rattle.camellia.specs.Numbers.{half_at};
ghost use Rattle.camellia.specs.Functions.{PS};
ghost use Rattle.camellia_byte.specs.Mixed.{mixed};

use crate::sbox::{s2, s3, s4};
use camellia_rounds::half::Half;
use camellia_rounds::sbox::s1;

#[derive(Clone, Copy)]
pub struct ByteHalf {
    bytes: [u8; 8],
}

impl From<u64> for ByteHalf {
    ghost from_gives = { λ x s. half_at s.bytes 0 ≡ x };

    fn from(x: u64) -> Self {
        ByteHalf {
            bytes: x.to_be_bytes(),
        }
    }
}

impl From<ByteHalf> for u64 {
    ghost from_gives = { λ s x. x ≡ half_at s.bytes 0 };

    fn from(s: ByteHalf) -> Self {
        u64::from_be_bytes(s.bytes)
    }
}

// S: bytes 1 to 8 go through s1, s2, s3, s4, s2, s3, s4, s1.
fn substitute(x: [u8; 8]) -> [u8; 8]
    ensures { half_at (mixed result) 0 ≡ PS (half_at x 0) }
{
    let [a, b, c, d, e, f, g, h] = x;
    [s1(a), s2(b), s3(c), s4(d), s2(e), s3(f), s4(g), s1(h)]
}

// P: eight sums of bytes.
fn mix(z: [u8; 8]) -> [u8; 8]
    ensures { result ≡ mixed z }
{
    [
        z[0] ^ z[2] ^ z[3] ^ z[5] ^ z[6] ^ z[7],
        z[0] ^ z[1] ^ z[3] ^ z[4] ^ z[6] ^ z[7],
        z[0] ^ z[1] ^ z[2] ^ z[4] ^ z[5] ^ z[7],
        z[1] ^ z[2] ^ z[3] ^ z[4] ^ z[5] ^ z[6],
        z[0] ^ z[1] ^ z[5] ^ z[6] ^ z[7],
        z[1] ^ z[2] ^ z[4] ^ z[6] ^ z[7],
        z[2] ^ z[3] ^ z[4] ^ z[5] ^ z[7],
        z[0] ^ z[3] ^ z[4] ^ z[5] ^ z[6],
    ]
}

impl Half for ByteHalf {
    ghost value = { λ s. half_at s.bytes 0 };

    ghost made = { Prim.search rules };

    ghost told = { Prim.search rules };

    fn xor(self, other: Self) -> Self {
        ByteHalf::from(u64::from(self) ^ u64::from(other))
    }

    fn ps(self) -> Self {
        ByteHalf {
            bytes: mix(substitute(self.bytes)),
        }
    }
}
