// The cipher under one key: load a key, encipher and decipher a block.
ghost use Rattle.std.specs.Prelude.{[], ◌∷◌, codes};
ghost use Rattle.camellia.specs.Cipher.{E, D};
ghost use Rattle.camellia.specs.Laws.{takes as takes_of};
ghost use Rattle.camellia_rounds.specs.Told.{enciphers_of, deciphers_of};
ghost use Rattle.camellia.proofs.Whole;
ghost use Rattle.camellia.proofs.Whole.{sized};
ghost use Rattle.std.proofs.Common.{rules};

use crate::bytes::{self, halves};
use crate::cipher::Camellia;
use crate::half::Half;
use crate::rounds::Halves;
use crate::schedule::Schedule;
use crate::sources::Sources;
use engine::Engine;
use refusal::Refusal;
use std::marker::PhantomData;

impl<H: Half> Engine for Camellia<H> {
    ghost NAME = { codes "camellia" };

    const NAME: [u8; 8] = *b"camellia";

    ghost KEY_LENGTHS = { 16 ∷ 24 ∷ 32 ∷ [] };

    const KEY_LENGTHS: [usize; 3] = [16, 24, 32];

    ghost takes = { takes_of };

    ghost cipher = { E };

    ghost inverse = { D };

    ghost enciphers = { enciphers_of };

    ghost deciphers = { deciphers_of };

    ghost lettered = { Prim.search rules };

    ghost sixteen = { Prim.search rules };

    ghost undone = { (Whole.undone).forth };

    ghost redone = { (Whole.undone).back };

    ghost enciphered_blocks = { sized.enciphers };

    ghost deciphered_blocks = { sized.deciphers };

    fn accepts(len: usize) -> bool {
        Self::KEY_LENGTHS.contains(&len)
    }

    fn new() -> Self {
        Camellia {
            schedule: Schedule::of::<H>(Sources::Rounds18(0)),
            path: PhantomData,
        }
    }

    fn load(&mut self, key: &[u8]) -> Result<(), Refusal> {
        let sources = Sources::try_from(key)?;
        self.schedule = Schedule::of::<H>(sources);
        Ok(())
    }

    // Two bodies, here and in `decipher`: each way is its own walk of the halves.
    fn encipher(&self, block: &mut [u8; 16]) {
        let s: Halves<H> = Halves::from(halves(block));
        let (left, right) = s.encrypted(&self.schedule).into();
        *block = bytes::block(left, right);
    }

    fn decipher(&self, block: &mut [u8; 16]) {
        let s: Halves<H> = Halves::from(halves(block));
        let (left, right) = s.decrypted(&self.schedule).into();
        *block = bytes::block(left, right);
    }
}
