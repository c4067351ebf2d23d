// What a label says. It stands alone, since the definitions speak of it.
ghost use Rattle.std.specs.Prelude.{◌≡◌, ℕ, ◌-◌, ◌<◌, ◌≤◌, true, List, Some, None};
ghost use Rattle.label.specs.Text.{Four};
ghost use Rattle.label.specs.Read.{lettered};

// The bits of one key.
#[derive(Clone, Copy, PartialEq, Eq, Debug)]
pub enum KeyBits {
    K128,
    K192,
    K256,
}

// No value breaks the rules of a label: each ghost field is one of them.
#[derive(Clone, Copy)]
pub struct Label {
    pub cipher: [u8; 8],
    pub keybits: KeyBits,
    pub frames: u16,
    pub check: [u8; 4],
    // the check value of the pair that a change leads to; none at rest
    pub next: Option<[u8; 4]>,
    pub moved: u16,
    ghost named: { lettered cipher ≡ true },
    ghost counted: { (2 ≤ frames) × (frames ≤ 1024) },
    ghost checked: { Four check },
    ghost nexted: { ((b : List ℕ) → next ≡ Some b → Four b) },
    ghost within: { moved < frames - 1 },
    ghost still: { (next ≡ None → moved ≡ 0) },
}

// The line `next` of a label with no change under way.
pub(crate) const AT_REST: [u8; 8] = *b"--------";
