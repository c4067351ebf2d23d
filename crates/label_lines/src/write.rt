// Puts the lines of a label together.
ghost use Rattle.std.specs.Prelude.{◌≡◌, ◌+◌, ◌≤◌, [], ◌++◌, length};
ghost use Rattle.arrayvec.specs.ArrayVec.{array_vec_len};
ghost use Rattle.text_lines.specs.Line.{line};
ghost use Rattle.label_lines.specs.Lines.{laid};
ghost use Rattle.label_lines.specs.Held.{held};

use crate::lines::{FILLING, Lines};
use arrayvec::ArrayVec;

fn append(text: &mut ArrayVec<u8, 128>, part: &[u8])
    requires { array_vec_len text.old + length part.now ≤ 128 }
    ensures items { text.new.items ≡ text.old.items ++ part.now }
    ensures len { array_vec_len text.new ≡ array_vec_len text.old + length part.now }
{
    text.try_extend_from_slice(part).unwrap()
}

#[tactic(auto, using(std::proofs::lemmas::List::append_assoc), unfolding(text_lines::specs::Line::assigned))]
fn append_line(text: &mut ArrayVec<u8, 128>, name: &[u8], value: &[u8])
    requires { array_vec_len text.old + (length name.now + length value.now + 2) ≤ 128 }
    ensures items { text.new.items ≡ text.old.items ++ line name.now value.now [] }
    ensures len { array_vec_len text.new ≡ array_vec_len text.old + (length name.now + length value.now + 2) }
{
    append(text, name);
    append(text, b"=");
    append(text, value);
    append(text, b"\n");
}

impl Lines {
    // The frame that holds these lines.
    pub fn write(&self) -> [u8; 128]
        ensures { result ≡ laid (held self.now) }
    {
        let mut text = ArrayVec::new();
        append_line(&mut text, b"cipher", &self.cipher);
        append_line(&mut text, b"keybits", &self.keybits);
        append_line(&mut text, b"frames", &self.frames);
        append_line(&mut text, b"check", &self.check);
        append_line(&mut text, b"next", &self.next);
        append_line(&mut text, b"moved", &self.moved);
        append(&mut text, FILLING);
        text.into_inner().unwrap()
    }
}
