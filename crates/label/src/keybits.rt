// The size of a key in a label's line and in a pair. The methods have names, since `From` and `TryFrom` would not say which of the two they read.
ghost use Rattle.std.specs.Prelude.{◌≡◌, ◌*◌, MatchOption, ◌≢◌};
ghost use Rattle.text_lines.specs.Decimal.{numeral};
ghost use Rattle.label.specs.Told.{bits};

use crate::label::KeyBits;

impl KeyBits {
    // The size of either key of a pair of so many bytes, half of it: four bits for each byte of the pair.
    pub fn of_pair(len: usize) -> Option<KeyBits>
        ensures { MatchOption result ((k : KeyBits) → len * 4 ≢ bits k) (λ k. len * 4 ≡ bits k) }
    {
        match len {
            32 => Some(KeyBits::K128),
            48 => Some(KeyBits::K192),
            64 => Some(KeyBits::K256),
            _ => None,
        }
    }

    // How many bytes a pair of such keys has.
    pub fn pair_len(self) -> usize
        ensures { 4 * result ≡ bits self }
    {
        match self {
            KeyBits::K128 => 32,
            KeyBits::K192 => 48,
            KeyBits::K256 => 64,
        }
    }

    pub(crate) fn read(digits: &[u8]) -> Option<KeyBits>
        ensures { MatchOption result
            ((k : KeyBits) → digits.now ≢ numeral 3 (bits k))
            (λ k. digits.now ≡ numeral 3 (bits k)) }
    {
        match digits {
            b"128" => Some(KeyBits::K128),
            b"192" => Some(KeyBits::K192),
            b"256" => Some(KeyBits::K256),
            _ => None,
        }
    }

    pub(crate) fn digits(self) -> [u8; 3]
        ensures { result ≡ numeral 3 (bits self) }
    {
        match self {
            KeyBits::K128 => *b"128",
            KeyBits::K192 => *b"192",
            KeyBits::K256 => *b"256",
        }
    }
}
