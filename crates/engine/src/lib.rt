// A block cipher under one key: what every engine tells, and what it promises.
#![tactic(auto)]

ghost use Rattle.std.specs.Prelude.{◌≡◌, ℕ, Bool, true, false, List, map, length, replicate};
ghost use Rattle.engine.specs.Kind.{EightLetters, Undoes, Blocks, load_answer};

use refusal::Refusal;

pub trait Engine: Sized {
    // of the kind: its name in eight letters, and the key lengths that it takes
    ghost NAME: { List ℕ };

    const NAME: [u8; 8];

    // one that takes fewer than three lengths names one of them again
    ghost KEY_LENGTHS: { List ℕ };

    const KEY_LENGTHS: [usize; 3];

    // of the kind: whether it takes keys of a length, and E and D of any key
    ghost takes: { ℕ → Bool };

    ghost cipher: { List ℕ → List ℕ → List ℕ };

    ghost inverse: { List ℕ → List ℕ → List ℕ };

    // of an engine: E and D of the key that it holds
    ghost enciphers: { Self → List ℕ → List ℕ };

    ghost deciphers: { Self → List ℕ → List ℕ };

    // Each kind says it: a law that ties it to the three lengths would shut out kinds that take more.
    fn accepts(len: usize) -> bool
        ensures { result ≡ takes len };

    // A new engine holds sixteen zero bytes.
    fn new() -> Self
        ensures enciphers { enciphers result ≡ cipher (replicate 16 0) }
        ensures deciphers { deciphers result ≡ inverse (replicate 16 0) };

    fn load(&mut self, key: &[u8]) -> Result<(), Refusal>
        ensures answer { result ≡ load_answer (takes (length key.now)) }
        ensures refused { takes (length key.now) ≡ false → self.new ≡ self.old }
        ensures enciphers { takes (length key.now) ≡ true → enciphers self.new ≡ cipher key.now }
        ensures deciphers { takes (length key.now) ≡ true → deciphers self.new ≡ inverse key.now };

    fn encipher(&self, block: &mut [u8; 16])
        ensures { block.new ≡ enciphers self.now block.old };

    fn decipher(&self, block: &mut [u8; 16])
        ensures { block.new ≡ deciphers self.now block.old };

    // The eight blocks of a frame at once; an engine that gains by it writes its own.
    // Two bodies, one for each way: one body would take the way as a closure and be longer than both.
    fn encipher_eight(&self, blocks: &mut [[u8; 16]; 8])
        ensures { blocks.new ≡ map (enciphers self.now) blocks.old }
    {
        for block in blocks.iter_mut() {
            self.encipher(block);
        }
    }

    fn decipher_eight(&self, blocks: &mut [[u8; 16]; 8])
        ensures { blocks.new ≡ map (deciphers self.now) blocks.old }
    {
        for block in blocks.iter_mut() {
            self.decipher(block);
        }
    }

    ghost lettered: { EightLetters NAME };

    ghost sixteen: { takes 16 ≡ true };

    ghost undone: { Undoes takes cipher inverse };

    ghost redone: { Undoes takes inverse cipher };

    ghost enciphered_blocks: { Blocks takes cipher };

    ghost deciphered_blocks: { Blocks takes inverse };
}
