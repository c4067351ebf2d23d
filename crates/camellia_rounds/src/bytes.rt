// Bytes and numbers, the most significant byte first.
ghost use Rattle.std.specs.Prelude.{◌≡◌};
ghost use Rattle.camellia.specs.Numbers.{half_at, bytes8};
ghost use Rattle.camellia.specs.Rounds.{st};
ghost use Rattle.camellia.specs.Keys.{left_half, right_half, joined as joined_of};
ghost use Rattle.camellia.specs.Cipher.{to_state, to_bytes};

pub fn left(x: u128) -> u64
    ensures { result ≡ left_half x }
{
    (x >> 64) as u64
}

pub fn right(x: u128) -> u64
    ensures { result ≡ right_half x }
{
    (x & 0xffff_ffff_ffff_ffff) as u64
}

pub fn joined(left: u64, right: u64) -> u128
    ensures { result ≡ joined_of left right }
{
    (left as u128) << 64 | right as u128
}

// Half a block, or eight bytes of a key.
pub(crate) fn half(bytes: &[u8; 8]) -> u64
    ensures { result ≡ half_at bytes.now 0 }
{
    u64::from_be_bytes(*bytes)
}

// The two halves of a block.
pub fn halves(block: &[u8; 16]) -> (u64, u64)
    ensures { st result.0 result.1 ≡ to_state block.now }
{
    let x = u128::from_be_bytes(*block);
    (left(x), right(x))
}

// Swapped first: the compiler stores the least significant byte first in one go, and the other order byte by byte.
fn eight(x: u64) -> [u8; 8]
    ensures { result ≡ bytes8 x }
{
    x.swap_bytes().to_le_bytes()
}

// The block of two halves.
pub fn block(left: u64, right: u64) -> [u8; 16]
    ensures { result ≡ to_bytes (st left right) }
{
    let [a, b, c, d, e, f, g, h] = eight(left);
    let [i, j, k, m, n, o, p, q] = eight(right);
    [a, b, c, d, e, f, g, h, i, j, k, m, n, o, p, q]
}
