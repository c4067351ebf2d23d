// The labels that a card writes, each whole: of a new card, of a change that begins, and after a step of it.
// They are no methods of `Label`, since a pair's check value and a step belong to crates above its own; `started` and `stepped`
// change a copy, since a struct with ghost fields takes no `..*label`.
#![tactic(auto)]

ghost use Rattle.std.specs.Prelude.{◌≡◌, ◌*◌, ◌&&◌, length, ◌==◌};
ghost use Rattle.sealing.specs.Pair.{paired};
ghost use Rattle.label.specs.Told.{bits, told, fields_in};
ghost use Rattle.law.specs.Kind.{check_of};
ghost use Rattle.law.specs.Model.{started_label};
ghost use Rattle.sealed_store.specs.Told.{keys_in};
ghost use Rattle.card_labels.specs.Written.{made_fields, stepped_fields};

use engine::Engine;
use label::label::{KeyBits, Label};
use octets::octets;
use sealed_store::keys;
use sealing::pair::Pair;

// Of a pair of so many bytes. A card has a label and a data frame at least, and 1,024 frames at most. Field by field and not by
// `Label::new`: tried so, it stays open that what comes back is the label of the definition.
pub fn made<E: Engine>(len: usize, frames: u64, pair: &Pair<E>) -> Option<Label>
    ensures { fields_in result ≡ made_fields E.Engine.NAME len frames (check_of (keys_in E.Engine pair.now)) }
{
    let keybits = KeyBits::of_pair(len)?;
    let frames = u16::try_from(frames).ok()?;
    if !(2..=1024).contains(&frames) {
        return None;
    }
    let cipher = E::NAME;
    let check = keys::check_value(pair);
    octets(&check);
    Some(Label {
        cipher,
        keybits,
        frames,
        check,
        next: None,
        moved: 0,
    })
}

pub fn started(label: &Label, next: [u8; 4]) -> Label
    ensures { told result ≡ started_label (told label.now) next }
{
    let mut started = *label;
    started.next = Some(next);
    started.moved = 0;
    started
}

// The last data frame moved ends the change, and the new pair is the pair.
pub fn stepped(label: &Label) -> Option<Label>
    ensures { fields_in result ≡ stepped_fields (told label.now) }
{
    let next = label.next?;
    let mut stepped = *label;
    stepped.moved += 1;
    if stepped.moved == label.frames - 1 {
        stepped.check = next;
        stepped.next = None;
        stepped.moved = 0;
    }
    Some(stepped)
}

// Whether a pair has two keys of the label's size.
pub fn sized(label: &Label, pair: &[u8]) -> bool
    ensures { result ≡ (paired (length pair.now) && bits label.now.keybits == 4 * length pair.now) }
{
    pair.len() == label.keybits.pair_len()
}
