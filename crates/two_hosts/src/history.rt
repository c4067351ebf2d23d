// The stores and the calls: every call of a card, and a refusal of each number that a card has.
use calls::{Request, Turn};
use std::alloc::{AllocError, Global};
use store::dump::Dump;
use store::flat::FlatImage;

const FRAMES: usize = 16;

// A dump of blank frames, of which 3 and 12 are worn.
pub(crate) fn blank(heap: Global) -> Result<Dump, AllocError> {
    let mut dump = Dump::new(FlatImage::new(vec![in heap; 0; FRAMES * 128]?));
    let _ = dump.mark(3);
    let _ = dump.mark(12);
    Ok(dump)
}

// The same frames in an image of one frame more.
pub(crate) fn grown(dump: Dump) -> Result<FlatImage, AllocError> {
    let mut bytes = dump.into_image().into_bytes();
    bytes.extend_from_slice(&[0; 128])?;
    Ok(FlatImage::new(bytes))
}

// Made under the old pair, written, and ejected with seven of fifteen frames moved.
pub(crate) fn at_home(heap: Global) -> Result<Vec<Turn>, AllocError> {
    let mut requests = vec![in heap;
        Request::Status,
        Request::Eject,
        Request::Mount(old(heap)?, none(heap)),
        Request::Make(vec![in heap; 0; 31]?),
        Request::Make(old(heap)?),
        Request::Write(2, save(heap, 2)?),
        Request::Write(9, save(heap, 9)?),
    ]?;
    requests.append(&mut refused(heap)?)?;
    requests.push(Request::Start(new(heap)?))?;
    requests.extend((0..7).map(|_| Request::Step))?;
    requests.push(Request::Eject)?;
    turns(heap, requests)
}

// Calls that a card at rest refuses.
fn refused(heap: Global) -> Result<Vec<Request>, AllocError> {
    Ok(vec![in heap;
        Request::Write(3, save(heap, 3)?),
        Request::Read(0, room(heap)?),
        Request::Read(16, room(heap)?),
        Request::Read(5, vec![in heap; 255; 127]?),
        Request::Step,
    ]?)
}

// Mounted with both pairs, at the third try, and written on both sides of the mark; then the change goes on to its end.
pub(crate) fn abroad(heap: Global) -> Result<Vec<Turn>, AllocError> {
    let mut requests = vec![in heap;
        Request::Mount(old(heap)?, none(heap)),
        Request::Mount(new(heap)?, old(heap)?),
        Request::Mount(old(heap)?, new(heap)?),
        Request::Status,
        Request::Write(7, save(heap, 7)?),
        Request::Write(8, save(heap, 8)?),
    ]?;
    requests.append(&mut reads(heap)?)?;
    requests.extend((0..8).map(|_| Request::Step))?;
    requests.append(&mut reads(heap)?)?;
    requests.push(Request::Status)?;
    requests.push(Request::Eject)?;
    turns(heap, requests)
}

// A store with another number of frames than the label has.
pub(crate) fn longer(heap: Global) -> Result<Vec<Turn>, AllocError> {
    turns(heap, vec![in heap; Request::Mount(new(heap)?, none(heap))]?)
}

fn turns(heap: Global, requests: Vec<Request>) -> Result<Vec<Turn>, AllocError> {
    requests
        .into_iter()
        .map(|request| Turn {
            request,
            reply: None,
        })
        .collect(heap)
}

fn reads(heap: Global) -> Result<Vec<Request>, AllocError> {
    [2, 7, 8, 9, 15]
        .into_iter()
        .map(|n| Ok(Request::Read(n, room(heap)?)))
        .try_collect(heap)
}

// The pair of bytes 0 to 31, and that of bytes 32 to 63.
fn old(heap: Global) -> Result<Vec<u8>, AllocError> {
    (0..32).collect(heap)
}

fn new(heap: Global) -> Result<Vec<u8>, AllocError> {
    (32..64).collect(heap)
}

fn none(heap: Global) -> Vec<u8> {
    Vec::new(heap)
}

// What is saved in a frame, and the buffer that a read is given.
fn save(heap: Global, byte: u8) -> Result<Vec<u8>, AllocError> {
    vec![in heap; byte; 128]
}

fn room(heap: Global) -> Result<Vec<u8>, AllocError> {
    vec![in heap; 255; 128]
}
