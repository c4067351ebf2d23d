use camellia::plan::Whitening;

// The keys of an FL layer: FL's on the left half, its inverse's on the right.
#[derive(Clone, Copy)]
pub struct FlKeys<K> {
    pub left: K,
    pub right: K,
}

// An FL layer and the six rounds after it.
#[derive(Clone, Copy)]
pub struct Group<K> {
    pub fl: FlKeys<K>,
    pub rounds: [K; 6],
}

// Six rounds, and then two or three groups: 18 or 24 rounds. The second and the third are no array: the derived `Clone` of an
// array of a parameter's groups is not proved.
#[derive(Clone, Copy)]
pub struct Groups<K> {
    pub first: [K; 6],
    pub second: Group<K>,
    pub third: Group<K>,
    pub fourth: Option<Group<K>>,
}

// All subkeys of a key, or where each of them comes from.
#[derive(Clone, Copy)]
pub struct Subkeys<K> {
    pub kw: Whitening<K>,
    pub groups: Groups<K>,
}

// The subkeys after the fold: only kw1 and kw3 are added to a block.
#[derive(Clone, Copy)]
pub struct FoldedKeys {
    pub kw1: u64,
    pub kw3: u64,
    pub groups: Groups<u64>,
}
