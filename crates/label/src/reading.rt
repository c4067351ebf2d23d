// Reads a label from its frame.
ghost use Rattle.std.specs.Prelude.{◌≡◌};
ghost use Rattle.label.specs.Read.{reads};
ghost use Rattle.label.specs.Told.{fields_in};

use crate::label::{AT_REST, KeyBits, Label};
use label_lines::lines::Lines;
use text_lines::{decimal, hex};

impl Label {
    // The label that the frame is the text of, if it is the text of any.
    pub fn read(frame: &[u8]) -> Option<Label>
        ensures { fields_in result ≡ reads frame.now }
    {
        let lines = Lines::read(frame)?;
        let keybits = KeyBits::read(&lines.keybits)?;
        let frames = decimal::read_four(&lines.frames)?;
        let check = hex::read_bytes(&lines.check)?;
        let moved = decimal::read_four(&lines.moved)?;
        let next = if lines.next == AT_REST {
            None
        } else {
            Some(hex::read_bytes(&lines.next)?)
        };
        Label::new(lines.cipher, keybits, frames, check, next, moved)
    }
}
