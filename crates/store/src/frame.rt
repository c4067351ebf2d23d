// Frames in the bytes of an image, each in a slot of 128 bytes.
ghost use Rattle.std.specs.Prelude.{◌≡◌, ◌+◌, ◌*◌, ◌<◌};
ghost use Rattle.store.specs.Frames.{frame_count};

use std::ops::Range;

pub(crate) const SIZE: usize = 128;

// A card has no more frames than this.
pub(crate) const MOST: usize = 1024;

pub(crate) fn count_in(len: usize) -> usize
    ensures { result ≡ frame_count len }
{
    (len / SIZE).min(MOST)
}

// Where the slot of frame n lies.
pub(crate) fn slot(n: u64) -> Range<usize>
    requires { n < 1024 }
    ensures start { result.start ≡ n * 128 }
    ensures end { result.end ≡ n * 128 + 128 }
{
    let start = n as usize * SIZE;
    start..start + SIZE
}
