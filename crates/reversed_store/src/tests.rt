// What callers see of the three stores: counts, frames, refusals and marks.
use crate::ReversedImage;
use refusal::Refusal;
use std::test::Fail;
use store::Store;
use store::dump::Dump;
use store::flat::FlatImage;

// The last frame comes back as written, and the numbers past it are refused.
fn ends<S: Store>(store: &mut S, last: u64) -> bool {
    let mut buffer = [0; 128];
    store.write(last, &[7; 128]) == Ok(())
        && store.read(last, &mut buffer) == Ok(())
        && buffer == [7; 128]
        && store.read(last, &mut buffer[1..]) == Err(Refusal::BufferLength(last))
        && [store.count(), 1 << 63, u64::MAX]
            .iter()
            .all(|n| refuses(store, *n))
}

fn refuses<S: Store>(store: &mut S, n: u64) -> bool {
    let mut buffer = [0; 128];
    store.read(n, &mut buffer) == Err(Refusal::FrameNumber(n))
        && store.write(n, &buffer) == Err(Refusal::FrameNumber(n))
}

#[test]
fn a_part_of_a_frame_is_no_frame(rt: HostRuntime) -> Result<(), Fail> {
    let mut image = FlatImage::new(vec![in rt.alloc(); 0; 127]?);
    assert!(rt; image.count() == 0);
    assert!(rt; refuses(&mut image, 0));
    Ok(())
}

#[test]
fn a_flat_image_has_its_last_frame_at_the_end(rt: HostRuntime) -> Result<(), Fail> {
    let mut image = FlatImage::new(vec![in rt.alloc(); 0; 131_073]?);
    assert!(rt; image.count() == 1024);
    assert!(rt; ends(&mut image, 1023));
    let bytes = image.into_bytes();
    assert!(rt; bytes.len() == 131_073);
    assert!(rt;
        bytes[130_943] == 0 && bytes[130_944] == 7 && bytes[131_071] == 7 && bytes[131_072] == 0
    );
    Ok(())
}

#[test]
fn a_reversed_image_has_its_last_frame_first(rt: HostRuntime) -> Result<(), Fail> {
    let mut image = ReversedImage::new(vec![in rt.alloc(); 0; 300]?);
    assert!(rt; image.count() == 2);
    assert!(rt; ends(&mut image, 1));
    let bytes = image.into_bytes();
    assert!(rt; bytes.len() == 300);
    assert!(rt; bytes[0] == 7 && bytes[127] == 7 && bytes[128] == 0 && bytes[299] == 0);
    Ok(())
}

#[test]
fn a_dump_has_room_for_twenty_worn_frames(rt: HostRuntime) -> Result<(), Fail> {
    let mut dump = Dump::new(FlatImage::new(vec![in rt.alloc(); 0; 4096]?));
    for n in 0..20u64 {
        assert!(rt; dump.mark(n) == Ok(()));
    }
    assert!(rt; dump.mark(3) == Ok(()));
    assert!(rt; dump.mark(20) == Err(Refusal::TooManyWorn(20)));
    assert!(rt; dump.mark(32) == Err(Refusal::FrameNumber(32)));
    assert!(rt; dump.is_worn(19) && !dump.is_worn(20));
    let mut buffer = [1; 128];
    assert!(rt; dump.read(3, &mut buffer) == Err(Refusal::WornFrame(3)));
    assert!(rt; dump.write(3, &buffer) == Err(Refusal::WornFrame(3)));
    assert!(rt; buffer == [1; 128]);
    assert!(rt; ends(&mut dump, 31));
    Ok(())
}
