// A key's bytes as K_L and K_R, and K_A and K_B from those.
ghost use Rattle.std.specs.Prelude.{◌≡◌, false, length, MatchResult};
ghost use Rattle.camellia.specs.Numbers.{half_at};
ghost use Rattle.camellia.specs.Keys.{mixed as mixed_of, material as material_from, joined as joined_of, with_complement as complemented};
ghost use Rattle.camellia.specs.Laws.{takes};
ghost use Rattle.camellia_rounds.specs.Sources.{Read, material_of};
ghost use Rattle.refusal.specs.declared.Refusal.TheVariants.{KeyLength};

use crate::bytes::{half, joined, left, right};
use crate::half::Half;
use crate::rounds::Halves;
use camellia::plan::Material;
use refusal::Refusal;

const SIGMA_1: u64 = 0xA09E667F3BCC908B;

const SIGMA_2: u64 = 0xB67AE8584CAA73B2;

const SIGMA_3: u64 = 0xC6EF372FE94F82BE;

const SIGMA_4: u64 = 0x54FF53A5F1D36F1C;

const SIGMA_5: u64 = 0x10E527FADE682D1D;

const SIGMA_6: u64 = 0xB05688C2B3E6C1FD;

// K_L, and K_R where a key has more than 16 bytes.
#[derive(Clone, Copy)]
pub enum Sources {
    Rounds18(u128),
    Rounds24(u128, u128),
}

impl TryFrom<&[u8]> for Sources {
    type Error = Refusal;

    ghost try_from_gives = { λ key r. MatchResult r (Read key.now) (λ e. (takes (length key.now) ≡ false) × (e ≡ KeyLength)) };

    fn try_from(key: &[u8]) -> Result<Self, Refusal> {
        let (words, rest) = key.as_chunks();
        if !rest.is_empty() {
            return Err(Refusal::KeyLength);
        }
        match words {
            [a, b] => Ok(Sources::Rounds18(number(a, b))),
            [a, b, c] => Ok(Sources::Rounds24(number(a, b), with_complement(c))),
            [a, b, c, d] => Ok(Sources::Rounds24(number(a, b), number(c, d))),
            _ => Err(Refusal::KeyLength),
        }
    }
}

fn number(left: &[u8; 8], right: &[u8; 8]) -> u128
    ensures { result ≡ joined_of (half_at left.now 0) (half_at right.now 0) }
{
    joined(half(left), half(right))
}

fn with_complement(last: &[u8; 8]) -> u128
    ensures { result ≡ complemented (half_at last.now 0) }
{
    let last = half(last);
    joined(last, !last)
}

// Two rounds under two constants.
fn mixed<H: Half>(first: u64, second: u64, x: u128) -> u128
    ensures { result ≡ mixed_of first second x }
{
    let s: Halves<H> = Halves::from((left(x), right(x)));
    let (left, right) = s.round(first).round(second).into();
    joined(left, right)
}

fn k_a<H: Half>(kl: u128, kr: u128) -> u128
    ensures { result ≡ (material_from kl kr).ka }
{
    let t = mixed::<H>(SIGMA_1, SIGMA_2, kl ^ kr);
    mixed::<H>(SIGMA_3, SIGMA_4, t ^ kl)
}

impl Sources {
    // The four sources; 18 rounds take nothing of K_B: zero stands for it.
    pub fn material<H: Half>(self) -> Material
        ensures { result ≡ material_of self }
    {
        match self {
            Sources::Rounds18(kl) => Material {
                kl,
                kr: 0,
                ka: k_a::<H>(kl, 0),
                kb: 0,
            },
            Sources::Rounds24(kl, kr) => {
                let ka = k_a::<H>(kl, kr);
                let kb = mixed::<H>(SIGMA_5, SIGMA_6, ka ^ kr);
                Material { kl, kr, ka, kb }
            }
        }
    }
}
