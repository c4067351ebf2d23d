// A flat image: the frames one after another.
ghost use Rattle.std.specs.Prelude.{◌≡◌, false, refl};
ghost use Rattle.store.specs.Answers.{left};
ghost use Rattle.octets.specs.Octets.{Bytes};
ghost use Rattle.store.specs.Frames.{flat_frames, placed, in_order};
ghost use Rattle.store.specs.Slots;

use crate::{Store, frame};
use refusal::Refusal;

// Bytes past the last whole frame, or past frame 1,023, are kept and never touched.
// No `impl Model`: the laws of `Store` are of every value, so its view would still hold `octets`.
#[derive(Drop)]
pub struct FlatImage {
    bytes: Vec<u8>,
    ghost octets: { Bytes bytes.items },
}

impl FlatImage {
    pub fn new(bytes: Vec<u8>) -> Self
        ensures { result.bytes ≡ bytes }
    {
        FlatImage { bytes }
    }

    pub fn into_bytes(self) -> Vec<u8>
        ensures { result ≡ self.bytes }
    {
        self.bytes
    }
}

impl Store for FlatImage {
    ghost frames = { λ s. flat_frames s.bytes.items };

    ghost worn = { λ s n. false };

    ghost write_gives = { λ s n buffer answer t.
        t.bytes.items ≡ left answer (placed s.bytes.items n buffer) s.bytes.items };

    ghost few = { λ s. Slots.few in_order s.bytes.items };

    ghost framed = { λ s n h. Slots.framed in_order s.bytes.items (λ k lt. lt) s.octets n h };

    ghost present = { λ s n h. refl };

    #[tactic(auto, using(crate::specs::Slots::slots))]
    fn count(&self) -> u64 {
        frame::count_in(self.bytes.len()) as u64
    }

    fn is_worn(&self, _n: u64) -> bool {
        false
    }

    #[tactic(auto, using(crate::specs::Slots::slots))]
    fn read(&self, n: u64, buffer: &mut [u8]) -> Result<(), Refusal> {
        self.check(n, buffer.len())?;
        buffer.copy_from_slice(&self.bytes[frame::slot(n)]);
        Ok(())
    }

    #[tactic(auto, using(crate::specs::Slots::slots, crate::specs::Slots::writes))]
    fn write(&mut self, n: u64, buffer: &[u8]) -> Result<(), Refusal> {
        self.check(n, buffer.len())?;
        self.bytes[frame::slot(n)].copy_from_slice(buffer);
        Ok(())
    }
}
