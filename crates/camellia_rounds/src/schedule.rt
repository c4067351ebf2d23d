// All subkeys of one key.
ghost use Rattle.std.specs.Prelude.{◌≡◌, ◌≤◌, length};

use camellia::plan::{Layer, Whitening};

// The first `count` layers are the key's. An array for each number of rounds, in an enum, is copied more on its way into an
// engine, and frames took 6 to 20 in 100 longer, by the form of the enum. No `ArrayVec`: it fills its unused places with the
// default of an element, and a layer has none.
#[derive(Clone, Copy)]
pub struct Schedule {
    pub kw: Whitening<u64>,
    pub layers: [Layer<u64>; 27],
    pub count: usize,
    ghost sized: { length layers ≡ 27 },
    ghost counted: { count ≤ 27 },
}
