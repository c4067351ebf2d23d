// A label is made of fields that keep the rules, and of no others.
ghost use Rattle.std.specs.Prelude.{◌≡◌, ◌-◌, ◌<◌, ◌≤◌, None, Decides};
ghost use Rattle.std.specs.Char.{is_ascii_lowercase};
ghost use Rattle.std.specs.List.{list_all};
ghost use Rattle.label.specs.Read.{allowed};
ghost use Rattle.label.specs.Told.{fields, fields_in};

use crate::label::{KeyBits, Label};

fn is_lettered(name: &[u8; 8]) -> bool
    ensures { result ≡ list_all is_ascii_lowercase name.now }
{
    name.iter().all(|letter| letter.is_ascii_lowercase())
}

fn counts_fit(frames: u16, moved: u16) -> bool
    ensures { Decides result ((2 ≤ frames) × (frames ≤ 1024) × (moved < frames - 1)) }
{
    (2..=1024).contains(&frames) && moved < frames - 1
}

// At rest nothing is moved.
fn is_still(next: Option<[u8; 4]>, moved: u16) -> bool
    ensures { Decides result (next ≡ None → moved ≡ 0) }
{
    next.is_some() || moved == 0
}

impl Label {
    // The six come one by one, since a struct of them would be a label without its rules.
    pub fn new(
        cipher: [u8; 8],
        keybits: KeyBits,
        frames: u16,
        check: [u8; 4],
        next: Option<[u8; 4]>,
        moved: u16,
    ) -> Option<Label>
        ensures { fields_in result ≡ allowed (fields cipher keybits frames check next moved) }
    {
        if !is_lettered(&cipher) || !counts_fit(frames, moved) || !is_still(next, moved) {
            return None;
        }
        Some(Label {
            cipher,
            keybits,
            frames,
            check,
            next,
            moved,
        })
    }
}
