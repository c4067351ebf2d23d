use label::label::{KeyBits, Label};
use std::test::Fail;

const AT_REST: &[u8] =
    b"cipher=camellia\nkeybits=128\nframes=0016\ncheck=0a1b2c3d\nnext=--------\nmoved=0000\n";

const CHANGING: &[u8] =
    b"cipher=camellia\nkeybits=128\nframes=0016\ncheck=0a1b2c3d\nnext=00000000\nmoved=0014\n";

const OTHER: &[u8] =
    b"cipher=toyengin\nkeybits=256\nframes=1024\ncheck=ffffffff\nnext=deadbeef\nmoved=0512\n";

// The text with zero bytes up to a length.
fn filled<const N: usize>(text: &[u8]) -> [u8; N] {
    let mut bytes = [0; N];
    for (to, from) in bytes.iter_mut().zip(text) {
        *to = *from;
    }
    bytes
}

fn framed(text: &[u8]) -> [u8; 128] {
    filled::<128>(text)
}

// What became of labels with a byte changed; three counts of one pass, which no filter gives.
#[derive(Clone, Copy, PartialEq, Eq, Debug, Default)]
struct Tally {
    refused: u32,
    other_label: u32,
    wrong: u32,
}

impl Tally {
    fn count(&mut self, frame: &[u8; 128]) {
        match Label::read(frame) {
            None => self.refused = self.refused.saturating_add(1),
            Some(label) => {
                if label.write() == *frame {
                    self.other_label = self.other_label.saturating_add(1);
                } else {
                    self.wrong = self.wrong.saturating_add(1);
                }
            }
        }
    }
}

fn with_a_byte_changed(text: &[u8]) -> Tally {
    let mut tally = Tally::default();
    let label = framed(text);
    for (at, byte) in label.iter().enumerate() {
        let mut frame = label;
        for step in 1..=255 {
            frame[at] = byte.wrapping_add(step);
            tally.count(&frame);
        }
    }
    tally
}

// Of 128 places with 255 other bytes each: letters of the cipher, digits of the check values and of the counts can change.
#[test]
fn a_changed_byte_is_refused_or_makes_another_label(rt: HostRuntime) {
    let table = [
        (AT_REST, 32_292, 348),
        (CHANGING, 32_174, 466),
        (OTHER, 32_167, 473),
    ];
    for (text, refused, other_label) in table {
        let expected = Tally {
            refused,
            other_label,
            wrong: 0,
        };
        assert_eq!(rt; with_a_byte_changed(text), expected);
    }
}

#[test]
fn a_label_is_written_as_its_text(rt: HostRuntime) -> Result<(), Fail> {
    let check_value = [0x0a, 0x1b, 0x2c, 0x3d];
    let rest = Label::new(*b"camellia", KeyBits::K128, 16, check_value, None, 0).ok_or_else(
        || Fail::new("a label at rest is refused"),
    )?;
    assert!(rt; rest.write() == framed(AT_REST));
    let next = Some([0xde, 0xad, 0xbe, 0xef]);
    let other = Label::new(*b"toyengin", KeyBits::K256, 1024, [0xff; 4], next, 512).ok_or_else(
        || Fail::new("a label in a change is refused"),
    )?;
    assert!(rt; other.write() == framed(OTHER));
    Ok(())
}

#[test]
fn a_text_that_breaks_a_rule_is_no_label(rt: HostRuntime) {
    let table: [&[u8]; 14] = [
        b"",
        b"cipher=camellia\nkeybits=128\nframes=0016\ncheck=0a1b2c3d\nnext=--------\nmoved=0001\n",
        b"cipher=camellia\nkeybits=128\nframes=0016\ncheck=0a1b2c3d\nnext=00000000\nmoved=0015\n",
        b"cipher=camellia\nkeybits=128\nframes=0001\ncheck=0a1b2c3d\nnext=--------\nmoved=0000\n",
        b"cipher=camellia\nkeybits=128\nframes=1025\ncheck=0a1b2c3d\nnext=--------\nmoved=0000\n",
        b"cipher=camellia\nkeybits=160\nframes=0016\ncheck=0a1b2c3d\nnext=--------\nmoved=0000\n",
        b"cipher=camellia\nkeybits=128\nframes=0016\ncheck=0A1B2C3D\nnext=--------\nmoved=0000\n",
        b"cipher=Camellia\nkeybits=128\nframes=0016\ncheck=0a1b2c3d\nnext=--------\nmoved=0000\n",
        b"cipher=camellia\nkeybits=128\nframes=0016\ncheck=0a1b2c3d\nnext=-------0\nmoved=0000\n",
        b"cipher=camellia\nkeybits=128\nframes=  16\ncheck=0a1b2c3d\nnext=--------\nmoved=0000\n",
        b"cipher=camellia\nkeybits=128\nframes=16\ncheck=0a1b2c3d\nnext=--------\nmoved=0000\n",
        b"cipher=camellia\nkeybits=128\nframes=0016\nnext=--------\ncheck=0a1b2c3d\nmoved=0000\n",
        b"cipher=camellia\r\nkeybits=128\nframes=0016\ncheck=0a1b2c3d\nnext=--------\nmoved=0000\n",
        b"cipher=camellia\nkeybits=128\nframes=0016\ncheck=0a1b2c3d\nnext=--------\nmoved=0000\n\n",
    ];
    for text in table {
        assert!(rt; Label::read(&framed(text)).is_none());
    }
}

#[test]
fn a_label_has_128_bytes(rt: HostRuntime) {
    assert!(rt; Label::read(&filled::<128>(AT_REST)).is_some());
    assert!(rt; Label::read(AT_REST).is_none());
    assert!(rt; Label::read(&filled::<127>(AT_REST)).is_none());
    assert!(rt; Label::read(&filled::<129>(AT_REST)).is_none());
}

#[test]
fn a_pair_has_two_keys_of_a_size(rt: HostRuntime) {
    assert!(rt; KeyBits::of_pair(32) == Some(KeyBits::K128));
    assert!(rt; KeyBits::of_pair(48) == Some(KeyBits::K192));
    assert!(rt; KeyBits::of_pair(64) == Some(KeyBits::K256));
    assert!(rt; KeyBits::of_pair(0).is_none() && KeyBits::of_pair(33).is_none());
    for keybits in [KeyBits::K128, KeyBits::K192, KeyBits::K256] {
        assert!(rt; KeyBits::of_pair(keybits.pair_len()) == Some(keybits));
    }
}
