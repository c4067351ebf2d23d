// What a new engine holds: the folded subkeys of sixteen zero bytes, as a constant, so that a new engine costs nothing.
ghost use Rattle.std.specs.Prelude.{◌≡◌, replicate};
ghost use Rattle.camellia.specs.Cipher.{enciphered, deciphered, E, D};
ghost use Rattle.camellia_subkeys.specs.Groups.{schedule_of};

use camellia_subkeys::keys::{FlKeys, FoldedKeys, Group, Groups};

const ZERO_KEYS: FoldedKeys = FoldedKeys {
    kw1: 0x4f9beb3e6afb3522,
    kw3: 0x6f388b64bb5b3676,
    groups: Groups {
        first: [
            0x59529d880617730d,
            0xba30f99a6e6cde71,
            0x4f9beb3e6afb3522,
            0,
            0xf4c0dd4849ece83a,
            0x7ccd37366f388b64,
        ],
        second: Group {
            fl: FlKeys {
                left: 0x9b3b118bee8c3e66,
                right: 0x9b9b379c45b25dad,
            },
            rounds: [
                0x5fdaea2e7ccd3736,
                0,
                0xd71f1d6863fe7afb,
                0,
                0xa479e5b7da2bfad1,
                0x116c976b66cec462,
            ],
        },
        third: Group {
            fl: FlKeys { left: 0, right: 0 },
            rounds: [
                0x2317dd187ccd3736,
                0,
                0xb88cea84397f6a9b,
                0x9b3b118bee8c3e66,
                0x2317dd187ccd3736,
                0,
            ],
        },
        fourth: None,
    },
};

pub(crate) fn zero_keys() -> FoldedKeys
    ensures enciphers { enciphered (schedule_of result) ≡ E (replicate 16 0) }
    ensures deciphers { deciphered (schedule_of result) ≡ D (replicate 16 0) }
{
    ZERO_KEYS
}
