// Writes a label as its text.
ghost use Rattle.std.specs.Prelude.{◌≡◌};
ghost use Rattle.label_lines.specs.Held.{held};
ghost use Rattle.label.specs.Text.{next_value, values, text};
ghost use Rattle.label.specs.Told.{told};

use crate::label::{AT_REST, Label};
use label_lines::lines::Lines;
use text_lines::{decimal, hex};

fn next_digits(next: Option<[u8; 4]>) -> [u8; 8]
    ensures { result ≡ next_value next }
{
    next.map_or(AT_REST, hex::write_four)
}

impl From<&Label> for Lines {
    ghost from_gives = { λ label lines. held lines ≡ values (told label.now) };

    fn from(label: &Label) -> Lines {
        Lines {
            cipher: label.cipher,
            keybits: label.keybits.digits(),
            frames: decimal::write_four(label.frames),
            check: hex::write_four(label.check),
            next: next_digits(label.next),
            moved: decimal::write_four(label.moved),
        }
    }
}

impl Label {
    // The label's text.
    #[tactic(auto, unfolding(crate::specs::Text::text))]
    pub fn write(&self) -> [u8; 128]
        ensures { result ≡ text (told self.now) }
    {
        Lines::from(self).write()
    }
}
