// The cipher under one key: load a key, encipher and decipher a block or a frame's eight.
ghost use Rattle.std.specs.Prelude.{◌≡◌, [], ◌∷◌, map, codes};
ghost use Rattle.camellia.specs.Cipher.{E, D};
ghost use Rattle.camellia.specs.Laws.{takes as takes_of};
ghost use Rattle.camellia_long.specs.Told.{enciphers_of, deciphers_of};
ghost use Rattle.camellia.proofs.Whole;
ghost use Rattle.camellia.proofs.Whole.{sized};
ghost use Rattle.std.proofs.Common.{rules};

use crate::blocks::Blocks;
use crate::cipher::LongCamellia;
use crate::zero::zero_keys;
use camellia_rounds::sources::Sources;
use camellia_subkeys::keys::FoldedKeys;
use engine::Engine;
use refusal::Refusal;
use std::array;

// A function for each way: with the way as a closure each of the four calls below would have to prove what these two prove.
impl LongCamellia {
    fn encipher_blocks<const N: usize>(&self, blocks: &mut [[u8; 16]; N])
        ensures { blocks.new ≡ map (enciphers_of self.now) blocks.old }
    {
        let mut halves = Blocks::of(blocks);
        halves.encrypt(&self.keys);
        halves.put(blocks);
    }

    fn decipher_blocks<const N: usize>(&self, blocks: &mut [[u8; 16]; N])
        ensures { blocks.new ≡ map (deciphers_of self.now) blocks.old }
    {
        let mut halves = Blocks::of(blocks);
        halves.decrypt(&self.keys);
        halves.put(blocks);
    }
}

impl Engine for LongCamellia {
    ghost NAME = { codes "camellia" };

    const NAME: [u8; 8] = *b"camellia";

    ghost KEY_LENGTHS = { 16 ∷ 24 ∷ 32 ∷ [] };

    const KEY_LENGTHS: [usize; 3] = [16, 24, 32];

    ghost takes = { takes_of };

    ghost cipher = { E };

    ghost inverse = { D };

    ghost enciphers = { enciphers_of };

    ghost deciphers = { deciphers_of };

    ghost lettered = { Prim.search rules };

    ghost sixteen = { Prim.search rules };

    ghost undone = { (Whole.undone).forth };

    ghost redone = { (Whole.undone).back };

    ghost enciphered_blocks = { sized.enciphers };

    ghost deciphered_blocks = { sized.deciphers };

    fn accepts(len: usize) -> bool {
        Self::KEY_LENGTHS.contains(&len)
    }

    fn new() -> Self {
        LongCamellia { keys: zero_keys() }
    }

    #[tactic(auto, using(crate::proofs::Told::enciphers_as, crate::proofs::Told::deciphers_as))]
    fn load(&mut self, key: &[u8]) -> Result<(), Refusal> {
        self.keys = FoldedKeys::from(Sources::try_from(key)?);
        Ok(())
    }

    fn encipher(&self, block: &mut [u8; 16]) {
        self.encipher_blocks(array::from_mut(block));
    }

    fn decipher(&self, block: &mut [u8; 16]) {
        self.decipher_blocks(array::from_mut(block));
    }

    fn encipher_eight(&self, blocks: &mut [[u8; 16]; 8]) {
        self.encipher_blocks(blocks);
    }

    fn decipher_eight(&self, blocks: &mut [[u8; 16]; 8]) {
        self.decipher_blocks(blocks);
    }
}
