// A half as a number.
ghost use Rattle.std.specs.Prelude.{◌≡◌, ◌%◌, ◌<◌};
ghost use Rattle.std.proofs.Common.{rules};
ghost use Rattle.camellia.specs.Functions.{F, FL, FLINV};
ghost use Rattle.camellia_tables.specs.Columns.{spread, sums as sums_of};

use crate::table::tables;
use camellia_rounds::half::Half;

#[derive(Clone, Copy)]
pub struct TableHalf(pub u64);

impl From<u64> for TableHalf {
    ghost from_gives = { λ x s. s.0 ≡ x };

    fn from(x: u64) -> Self {
        TableHalf(x)
    }
}

impl From<TableHalf> for u64 {
    ghost from_gives = { λ s x. x ≡ s.0 };

    fn from(s: TableHalf) -> Self {
        s.0
    }
}

// The low byte of `y` through the table of place `i`; the mask bounds the index and costs nothing.
fn sp(i: usize, y: u64) -> u64
    requires { i < 8 }
    ensures { result ≡ spread i (y % 256) }
{
    tables()[i][(y & 0xff) as usize]
}

// S and P: each byte through the table of its place.
fn sums(y: u64) -> u64
    ensures { result ≡ sums_of y }
{
    sp(0, y >> 56)
        ^ sp(1, y >> 48)
        ^ sp(2, y >> 40)
        ^ sp(3, y >> 32)
        ^ sp(4, y >> 24)
        ^ sp(5, y >> 16)
        ^ sp(6, y >> 8)
        ^ sp(7, y)
}

impl Half for TableHalf {
    ghost value = { λ s. s.0 };

    ghost made = { Prim.search rules };

    ghost told = { Prim.search rules };

    fn xor(self, other: Self) -> Self {
        TableHalf(self.0 ^ other.0)
    }

    fn ps(self) -> Self {
        TableHalf(sums(self.0))
    }
}

// The same on plain numbers: a half, and a key that callers hold apart from it.
pub fn f(x: u64, k: u64) -> u64
    ensures { result ≡ F x k }
{
    TableHalf(x).f(TableHalf(k)).0
}

pub fn fl(x: u64, k: u64) -> u64
    ensures { result ≡ FL x k }
{
    TableHalf(x).fl(TableHalf(k)).0
}

pub fn fl_inverse(y: u64, k: u64) -> u64
    ensures { result ≡ FLINV y k }
{
    TableHalf(y).fl_inverse(TableHalf(k)).0
}
