// Where the frames of a card are kept: what every store tells, and what it promises.
#![tactic(auto)]

ghost use Rattle.std.specs.Prelude.{◌≡◌, ℕ, ◌<◌, ◌≤◌, Bool, false, List, [], length, Result, slice_index_or, slice_set};
ghost use Rattle.store.specs.Answers.{call_answer, left};
ghost use Rattle.octets.specs.Octets.{Frame};
ghost use Rattle.refusal.specs.declared.Refusal.{Refusal};

use refusal::Refusal;

pub mod dump;
pub mod flat;
mod frame;

pub trait Store: Sized {
    ghost frames: { Self → List (List ℕ) };

    ghost worn: { Self → ℕ → Bool };

    // What a write leaves beside the frames, where a store says more.
    ghost write_gives: { Self → ℕ → List ℕ → Result (Unit {0}) Refusal → Self → Type 0 } = { λ s n buffer answer t. Unit {0} };

    fn count(&self) -> u64
        ensures { result ≡ length (frames self.now) };

    fn is_worn(&self, n: u64) -> bool
        ensures { result ≡ worn self.now n };

    // The checks of a read or a write, in their order. The answer is one definition, which three contracts name at what each is given.
    fn check(&self, n: u64, len: usize) -> Result<(), Refusal>
        ensures { result ≡ call_answer len (length (frames self.now)) (worn self.now n) n }
    {
        if len != frame::SIZE {
            return Err(Refusal::BufferLength(n));
        }
        if n >= self.count() {
            return Err(Refusal::FrameNumber(n));
        }
        if self.is_worn(n) {
            return Err(Refusal::WornFrame(n));
        }
        Ok(())
    }

    // A frame's number and a buffer come apart, here as in a card: the number stands nowhere in the frame.
    fn read(&self, n: u64, buffer: &mut [u8]) -> Result<(), Refusal>
        ensures answer { result ≡ call_answer (length buffer.old) (length (frames self.now)) (worn self.now n) n }
        ensures buffer { buffer.new ≡ left result (slice_index_or (frames self.now) n []) buffer.old };

    fn write(&mut self, n: u64, buffer: &[u8]) -> Result<(), Refusal>
        ensures answer { result ≡ call_answer (length buffer.now) (length (frames self.old)) (worn self.old n) n }
        ensures frames { frames self.new ≡ left result (slice_set (frames self.old) n buffer.now) (frames self.old) }
        ensures count { length (frames self.new) ≡ length (frames self.old) }
        ensures worn { worn self.new ≡ worn self.old }
        ensures gives { write_gives self.old n buffer.now result self.new };

    ghost few: { (s : Self) → length (frames s) ≤ 1024 };

    ghost framed: { (s : Self) (n : ℕ) → n < length (frames s) → Frame (slice_index_or (frames s) n []) };

    ghost present: { (s : Self) (n : ℕ) → length (frames s) ≤ n → worn s n ≡ false };
}
