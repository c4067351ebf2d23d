// Where each subkey comes from: source, rotation and side, as RFC 3713 lists them.
ghost use Rattle.std.specs.Prelude.{◌≡◌, ◌≤◌, length};
ghost use Rattle.camellia.specs.Keys.{scheduled};
ghost use Rattle.camellia_rounds.specs.Sources.{material_of, schedule_from};

use crate::sources::Sources;
use camellia::plan::{Layer, Slot, Source, Whitening};

// The whitening keys and the layers of a number of rounds. In a list, as a schedule has its layers, through which one loop goes both ways; the
// long path has them in groups, from which its compiled key schedule has no slot left to look at.
#[derive(Clone, Copy)]
pub(crate) struct Plan {
    pub kw: Whitening<Slot>,
    pub layers: &'static [Layer<Slot>],
}

const WHITENING_18: Whitening<Slot> = Whitening {
    kw1: Slot::Left(Source::KL, 0),
    kw2: Slot::Right(Source::KL, 0),
    kw3: Slot::Left(Source::KA, 111),
    kw4: Slot::Right(Source::KA, 111),
};

static LAYERS_18: [Layer<Slot>; 20] = [
    Layer::Round(Slot::Left(Source::KA, 0)),
    Layer::Round(Slot::Right(Source::KA, 0)),
    Layer::Round(Slot::Left(Source::KL, 15)),
    Layer::Round(Slot::Right(Source::KL, 15)),
    Layer::Round(Slot::Left(Source::KA, 15)),
    Layer::Round(Slot::Right(Source::KA, 15)),
    Layer::Fl(Slot::Left(Source::KA, 30), Slot::Right(Source::KA, 30)),
    Layer::Round(Slot::Left(Source::KL, 45)),
    Layer::Round(Slot::Right(Source::KL, 45)),
    Layer::Round(Slot::Left(Source::KA, 45)),
    Layer::Round(Slot::Right(Source::KL, 60)),
    Layer::Round(Slot::Left(Source::KA, 60)),
    Layer::Round(Slot::Right(Source::KA, 60)),
    Layer::Fl(Slot::Left(Source::KL, 77), Slot::Right(Source::KL, 77)),
    Layer::Round(Slot::Left(Source::KL, 94)),
    Layer::Round(Slot::Right(Source::KL, 94)),
    Layer::Round(Slot::Left(Source::KA, 94)),
    Layer::Round(Slot::Right(Source::KA, 94)),
    Layer::Round(Slot::Left(Source::KL, 111)),
    Layer::Round(Slot::Right(Source::KL, 111)),
];

const WHITENING_24: Whitening<Slot> = Whitening {
    kw1: Slot::Left(Source::KL, 0),
    kw2: Slot::Right(Source::KL, 0),
    kw3: Slot::Left(Source::KB, 111),
    kw4: Slot::Right(Source::KB, 111),
};

static LAYERS_24: [Layer<Slot>; 27] = [
    Layer::Round(Slot::Left(Source::KB, 0)),
    Layer::Round(Slot::Right(Source::KB, 0)),
    Layer::Round(Slot::Left(Source::KR, 15)),
    Layer::Round(Slot::Right(Source::KR, 15)),
    Layer::Round(Slot::Left(Source::KA, 15)),
    Layer::Round(Slot::Right(Source::KA, 15)),
    Layer::Fl(Slot::Left(Source::KR, 30), Slot::Right(Source::KR, 30)),
    Layer::Round(Slot::Left(Source::KB, 30)),
    Layer::Round(Slot::Right(Source::KB, 30)),
    Layer::Round(Slot::Left(Source::KL, 45)),
    Layer::Round(Slot::Right(Source::KL, 45)),
    Layer::Round(Slot::Left(Source::KA, 45)),
    Layer::Round(Slot::Right(Source::KA, 45)),
    Layer::Fl(Slot::Left(Source::KL, 60), Slot::Right(Source::KL, 60)),
    Layer::Round(Slot::Left(Source::KR, 60)),
    Layer::Round(Slot::Right(Source::KR, 60)),
    Layer::Round(Slot::Left(Source::KB, 60)),
    Layer::Round(Slot::Right(Source::KB, 60)),
    Layer::Round(Slot::Left(Source::KL, 77)),
    Layer::Round(Slot::Right(Source::KL, 77)),
    Layer::Fl(Slot::Left(Source::KA, 77), Slot::Right(Source::KA, 77)),
    Layer::Round(Slot::Left(Source::KR, 94)),
    Layer::Round(Slot::Right(Source::KR, 94)),
    Layer::Round(Slot::Left(Source::KA, 94)),
    Layer::Round(Slot::Right(Source::KA, 94)),
    Layer::Round(Slot::Left(Source::KL, 111)),
    Layer::Round(Slot::Right(Source::KL, 111)),
];

impl Plan {
    // 18 rounds and 4 keys of FL, or 24 rounds and 6 keys of FL.
    pub(crate) fn of(sources: Sources) -> Self
        ensures schedule { scheduled (material_of sources) result.kw result.layers.now ≡ schedule_from sources }
        ensures fits { length result.layers.now ≤ 27 }
    {
        match sources {
            Sources::Rounds18(_) => Plan {
                kw: WHITENING_18,
                layers: &LAYERS_18,
            },
            Sources::Rounds24(_, _) => Plan {
                kw: WHITENING_24,
                layers: &LAYERS_24,
            },
        }
    }
}
