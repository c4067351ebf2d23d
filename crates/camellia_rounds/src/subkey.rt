// A subkey: a half of a source that is rotated left.
ghost use Rattle.std.specs.Prelude.{◌≡◌};
ghost use Rattle.camellia.specs.Keys.{from, subkey as subkey_of, whitening_of};

use crate::bytes::{left, right};
use camellia::plan::{Material, Slot, Source, Whitening};

// The four are fields by the standard's names; `Index` would be this match under another name.
fn source(m: &Material, source: Source) -> u128
    ensures { result ≡ from m.now source }
{
    match source {
        Source::KL => m.kl,
        Source::KR => m.kr,
        Source::KA => m.ka,
        Source::KB => m.kb,
    }
}

pub fn subkey(m: &Material, slot: Slot) -> u64
    ensures { result ≡ subkey_of m.now slot }
{
    match slot {
        Slot::Left(s, turn) => left(source(m, s).rotate_left(turn)),
        Slot::Right(s, turn) => right(source(m, s).rotate_left(turn)),
    }
}

#[inline(always)]
pub fn whitening(m: &Material, kw: Whitening<Slot>) -> Whitening<u64>
    ensures { result ≡ whitening_of m.now kw }
{
    Whitening {
        kw1: subkey(m, kw.kw1),
        kw2: subkey(m, kw.kw2),
        kw3: subkey(m, kw.kw3),
        kw4: subkey(m, kw.kw4),
    }
}
