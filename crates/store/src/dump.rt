// A dump: a flat image and the frames of it that are worn.
ghost use Rattle.std.specs.Prelude.{◌≡◌, ℕ, true, ◌||◌, [], length, ◌==◌};
ghost use Rattle.store.specs.Answers.{left};
ghost use Rattle.store.specs.Frames.{frame_count, flat_frames, placed, in_order};
ghost use Rattle.store.specs.Worn.{among, below, mark_answer, marked};
ghost use Rattle.store.specs.Slots;
ghost use Rattle.std.proofs.Common.{arith};
ghost use Rattle.store.specs.Slots.{length-frames_in};
ghost use Rattle.store.specs.WornLemmas.{among_past};

use crate::Store;
use crate::flat::FlatImage;
use arrayvec::ArrayVec;
use refusal::Refusal;

// Each worn frame is listed once, and at most twenty are.
// No `impl Model`, as for `FlatImage`: its view would still hold `present`.
#[derive(Drop)]
pub struct Dump {
    image: FlatImage,
    marks: ArrayVec<u64, 20>,
    ghost present: { below (frame_count (length image.bytes.items)) marks.items ≡ true },
}

impl Dump {
    pub fn new(image: FlatImage) -> Self
        ensures image { result.image ≡ image }
        ensures marks { result.marks.items ≡ [] }
    {
        Dump {
            image,
            marks: ArrayVec::new(),
        }
    }

    #[tactic(auto, using(crate::specs::Slots::slots, crate::specs::WornLemmas::below_push))]
    pub fn mark(&mut self, n: u64) -> Result<(), Refusal>
        ensures answer { result
            ≡ mark_answer (frame_count (length self.old.image.bytes.items)) self.old.marks.items n }
        ensures marks { self.new.marks.items
            ≡ left result (marked self.old.marks.items n) self.old.marks.items }
        ensures worn { (k : ℕ) → among self.new.marks.items k
            ≡ left result (n == k || among self.old.marks.items k) (among self.old.marks.items k) }
        ensures image { self.new.image ≡ self.old.image }
    {
        if n >= self.count() {
            return Err(Refusal::FrameNumber(n));
        }
        if self.is_worn(n) {
            return Ok(());
        }
        self.marks.try_push(n).map_err(|_| Refusal::TooManyWorn(n))
    }

    pub fn into_image(self) -> FlatImage
        ensures { result ≡ self.image }
    {
        self.image
    }
}

impl Store for Dump {
    ghost frames = { λ s. flat_frames s.image.bytes.items };

    ghost worn = { λ s n. among s.marks.items n };

    ghost write_gives = { λ s n buffer answer t.
        t.image.bytes.items ≡ left answer (placed s.image.bytes.items n buffer) s.image.bytes.items };

    ghost few = { λ s. Slots.few in_order s.image.bytes.items };

    ghost framed = { λ s n h. Slots.framed in_order s.image.bytes.items (λ k lt. lt) s.image.octets n h };

    ghost present = { λ s n h.
        let l = length-frames_in in_order s.image.bytes.items in
        among_past (frame_count (length s.image.bytes.items)) s.marks.items n s.present (omega arith) };

    fn count(&self) -> u64 {
        self.image.count()
    }

    fn is_worn(&self, n: u64) -> bool {
        self.marks.contains(&n)
    }

    fn read(&self, n: u64, buffer: &mut [u8]) -> Result<(), Refusal> {
        self.check(n, buffer.len())?;
        self.image.read(n, buffer)
    }

    #[tactic(auto, using(crate::specs::Slots::slots))]
    fn write(&mut self, n: u64, buffer: &[u8]) -> Result<(), Refusal> {
        self.check(n, buffer.len())?;
        self.image.write(n, buffer)
    }
}
