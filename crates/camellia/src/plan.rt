// The shape of the key schedule of RFC 3713: which half of which source, rotated how far, serves where.

// K_L, K_R, K_A and K_B.
#[derive(Clone, Copy)]
pub enum Source {
    KL,
    KR,
    KA,
    KB,
}

// The four sources of one key, numbers of 128 bits.
#[derive(Clone, Copy)]
pub struct Material {
    pub kl: u128,
    pub kr: u128,
    pub ka: u128,
    pub kb: u128,
}

// A subkey is the left or the right half of a source that is rotated left.
#[derive(Clone, Copy)]
pub enum Slot {
    Left(Source, u32),
    Right(Source, u32),
}

// What stands between the whitening keys: a round, or FL on the left half and its inverse on the right.
#[derive(Clone, Copy)]
pub enum Layer<K> {
    Round(K),
    Fl(K, K),
}

// The keys that are added to the two halves before the first layer and after the last.
#[derive(Clone, Copy)]
pub struct Whitening<K> {
    pub kw1: K,
    pub kw2: K,
    pub kw3: K,
    pub kw4: K,
}
