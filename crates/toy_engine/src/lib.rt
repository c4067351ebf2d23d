// An engine for tests of generic code: it hands its block back, which is a lawful cipher, and no Camellia.
#![tactic(auto)]

ghost use Rattle.std.specs.Prelude.{[], ◌∷◌, ◌||◌, codes, ◌==◌};
ghost use Rattle.std.proofs.Common.{rules};

use engine::Engine;
use refusal::Refusal;

#[derive(Drop)]
pub struct Identity;

impl Engine for Identity {
    ghost NAME = { codes "identity" };

    const NAME: [u8; 8] = *b"identity";

    ghost KEY_LENGTHS = { 16 ∷ 24 ∷ 16 ∷ [] };

    const KEY_LENGTHS: [usize; 3] = [16, 24, 16];

    ghost takes = { λ n. (n == 16) || n == 24 };

    ghost cipher = { λ _ b. b };

    ghost inverse = { λ _ b. b };

    ghost enciphers = { λ _ b. b };

    ghost deciphers = { λ _ b. b };

    ghost lettered = { Prim.search rules };

    ghost sixteen = { Prim.search rules };

    ghost undone = { Prim.search rules };

    ghost redone = { Prim.search rules };

    ghost enciphered_blocks = { Prim.search rules };

    ghost deciphered_blocks = { Prim.search rules };

    fn accepts(len: usize) -> bool {
        Self::KEY_LENGTHS.contains(&len)
    }

    fn new() -> Self {
        Identity
    }

    fn load(&mut self, key: &[u8]) -> Result<(), Refusal> {
        if !Self::accepts(key.len()) {
            return Err(Refusal::KeyLength);
        }
        Ok(())
    }

    fn encipher(&self, _block: &mut [u8; 16]) {}

    fn decipher(&self, _block: &mut [u8; 16]) {}
}

#[cfg(test)]
mod tests;
