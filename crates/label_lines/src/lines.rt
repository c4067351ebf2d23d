// The values of a label as they stand in its lines.
#[derive(Clone, Copy)]
pub struct Lines {
    pub cipher: [u8; 8],
    pub keybits: [u8; 3],
    pub frames: [u8; 4],
    pub check: [u8; 8],
    pub next: [u8; 8],
    pub moved: [u8; 4],
}

// The zero bytes that fill a label's frame after its lines.
pub(crate) const FILLING: &[u8] = &[0; 48];
