// A store of another shape, for tests of generic code: its frames stand in reverse order.
#![tactic(auto)]

ghost use Rattle.std.specs.Prelude.{◌≡◌, ◌<◌, false, length, refl};
ghost use Rattle.store.specs.Frames.{frame_count};
ghost use Rattle.reversed_store.specs.Backwards.{backwards, frames_back};
ghost use Rattle.store.specs.Slots;
ghost use Rattle.std.proofs.Common.{arith};

use refusal::Refusal;
use store::Store;
use store::flat::FlatImage;

#[derive(Drop)]
pub struct ReversedImage {
    image: FlatImage,
}

impl ReversedImage {
    pub fn new(bytes: Vec<u8>) -> Self
        ensures { result.image.bytes ≡ bytes }
    {
        ReversedImage {
            image: FlatImage::new(bytes),
        }
    }

    pub fn into_bytes(self) -> Vec<u8>
        ensures { result ≡ self.image.bytes }
    {
        self.image.into_bytes()
    }

    #[tactic(auto, using(store::specs::Slots::slots))]
    fn slot(&self, n: u64) -> u64
        requires { n < frame_count (length self.now.image.bytes.items) }
        ensures { result ≡ backwards (frame_count (length self.now.image.bytes.items)) n }
    {
        self.count() - 1 - n
    }
}

impl Store for ReversedImage {
    ghost frames = { λ s. frames_back s.image.bytes.items };

    ghost worn = { λ s n. false };

    ghost few = { λ s.
        let bytes = s.image.bytes.items in
        Slots.few (backwards (frame_count (length bytes))) bytes };

    ghost framed = { λ s n h.
        let bytes = s.image.bytes.items in
        let back = backwards (frame_count (length bytes)) in
        Slots.framed back bytes (λ k lt. omega arith) s.image.octets n h };

    ghost present = { λ s n h. refl };

    #[tactic(auto, using(store::specs::Slots::slots))]
    fn count(&self) -> u64 {
        self.image.count()
    }

    fn is_worn(&self, _n: u64) -> bool {
        false
    }

    #[tactic(auto, using(store::specs::Slots::slots))]
    fn read(&self, n: u64, buffer: &mut [u8]) -> Result<(), Refusal> {
        self.check(n, buffer.len())?;
        let slot = self.slot(n);
        self.image.read(slot, buffer)
    }

    #[tactic(auto, using(store::specs::Slots::slots, crate::proofs::Back::frames_back_placed))]
    fn write(&mut self, n: u64, buffer: &[u8]) -> Result<(), Refusal> {
        self.check(n, buffer.len())?;
        let slot = self.slot(n);
        self.image.write(slot, buffer)
    }
}

#[cfg(test)]
mod tests;
