use camellia_subkeys::keys::FoldedKeys;

// Holds the folded subkeys of one key.
#[derive(Drop)]
pub struct LongCamellia {
    pub keys: FoldedKeys,
}
