// The substitutions that come from s1 by rotations.
ghost use Rattle.std.specs.Prelude.{◌≡◌};
ghost use Rattle.camellia.specs.Sbox.{s2 as sbox2, s3 as sbox3, s4 as sbox4};

use camellia_rounds::sbox::s1;

pub(crate) fn s2(x: u8) -> u8
    ensures { result ≡ sbox2 x }
{
    s1(x).rotate_left(1)
}

pub(crate) fn s3(x: u8) -> u8
    ensures { result ≡ sbox3 x }
{
    s1(x).rotate_right(1)
}

pub(crate) fn s4(x: u8) -> u8
    ensures { result ≡ sbox4 x }
{
    s1(x.rotate_left(1))
}
