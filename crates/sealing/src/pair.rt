// A pair of engines under a pair of keys: seals and opens frames.
ghost use Rattle.std.specs.Prelude.{◌≡◌, ℕ, ◌/◌, true, length, replicate, Ok, ◌≢◌};
ghost use Rattle.sealing.specs.Pair.{paired as paired_of, pair_answer, data_key, tweak_key, check_value};
ghost use Rattle.sealing.specs.Xts.{xts};

use crate::xts::between_masks;
use engine::Engine;
use refusal::Refusal;
use std::array;

// The engine under the data key, and the one under the tweak key. The fields are open, since a refused load leaves
// the engines themselves as they were: a view of what they tell would promise less.
#[derive(Drop)]
pub struct Pair<E> {
    pub cipher: E,
    pub tweak: E,
}

// Whether a pair of keys has this many bytes.
pub fn paired(len: usize) -> bool
    ensures { result ≡ paired_of len }
{
    matches!(len, 32 | 48 | 64)
}

impl<E: Engine> Pair<E> {
    // Both engines hold sixteen zero bytes.
    pub fn new() -> Self
        ensures cipher { E.enciphers result.cipher ≡ E.Engine.cipher (replicate 16 0) }
        ensures inverse { E.deciphers result.cipher ≡ E.Engine.inverse (replicate 16 0) }
        ensures tweak { E.enciphers result.tweak ≡ E.Engine.cipher (replicate 16 0) }
    {
        Pair {
            cipher: E::new(),
            tweak: E::new(),
        }
    }

    pub fn load(&mut self, keys: &[u8]) -> Result<(), Refusal>
        ensures answer { result ≡ pair_answer (paired_of (length keys.now)) (E.Engine.takes (length keys.now / 2)) }
        ensures refused { (result ≢ Ok tt) → self.new ≡ self.old }
        ensures cipher { result ≡ Ok tt → E.enciphers self.new.cipher ≡ E.Engine.cipher (data_key keys.now) }
        ensures inverse { result ≡ Ok tt → E.deciphers self.new.cipher ≡ E.Engine.inverse (data_key keys.now) }
        ensures tweak { result ≡ Ok tt → E.enciphers self.new.tweak ≡ E.Engine.cipher (tweak_key keys.now) }
    {
        if !paired(keys.len()) {
            return Err(Refusal::PairLength);
        }
        let (data, tweak) = keys.split_at(keys.len() / 2);
        self.cipher.load(data)?;
        self.tweak.load(tweak)
    }

    // Both ways are one walk, which is given the cipher or its inverse. A frame comes beside its number, which stands nowhere in it.
    pub fn seal(&self, frame: u64, bytes: &mut [u8; 128])
        ensures { bytes.new ≡ xts (E.enciphers self.now.cipher) (E.enciphers self.now.tweak) frame bytes.old }
    {
        let Pair { cipher, tweak } = self;
        between_masks(tweak, frame, bytes, |blocks| cipher.encipher_eight(blocks));
    }

    pub fn open(&self, frame: u64, bytes: &mut [u8; 128])
        ensures { bytes.new ≡ xts (E.deciphers self.now.cipher) (E.enciphers self.now.tweak) frame bytes.old }
    {
        let Pair { cipher, tweak } = self;
        between_masks(tweak, frame, bytes, |blocks| cipher.decipher_eight(blocks));
    }

    pub fn check_value(&self) -> [u8; 4]
        ensures { result ≡ check_value (E.enciphers self.now.cipher) (E.enciphers self.now.tweak) }
    {
        let mut block = [0; 16];
        self.tweak.encipher(&mut block);
        self.cipher.encipher(&mut block);
        array::from_fn(|i| block[i])
    }
}
