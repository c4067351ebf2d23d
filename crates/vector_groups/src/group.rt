// A group of a test vector.
ghost use Rattle.std.specs.Prelude.{◌≡◌};
ghost use Rattle.vector_groups.specs.Text.{key_bytes};

#[derive(Clone, Copy, PartialEq, Eq, Debug)]
pub enum Key {
    Bits128([u8; 16]),
    Bits192([u8; 24]),
    Bits256([u8; 32]),
}

#[derive(Clone, Copy, PartialEq, Eq, Debug)]
pub struct Group {
    pub key: Key,
    pub plain: [u8; 16],
    pub cipher: [u8; 16],
}

impl Key {
    pub fn bytes(&self) -> &[u8]
        ensures { result.now ≡ key_bytes self.now }
    {
        match self {
            Key::Bits128(bytes) => bytes,
            Key::Bits192(bytes) => bytes,
            Key::Bits256(bytes) => bytes,
        }
    }
}
