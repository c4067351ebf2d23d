// The folded subkeys of a key.
ghost use Rattle.std.specs.Prelude.{◌≡◌};
ghost use Rattle.camellia_fold.specs.Fold.{fold};
ghost use Rattle.camellia_rounds.specs.Sources.{schedule_from};
ghost use Rattle.camellia_subkeys.specs.Groups.{schedule_of};

use crate::keys::FoldedKeys;
use crate::plans::{PLAN_18, PLAN_24};
use camellia_rounds::sources::Sources;
use camellia_tables::half::TableHalf;

impl From<Sources> for FoldedKeys {
    ghost from_gives = { λ s k. schedule_of k ≡ fold (schedule_from s) };

    fn from(sources: Sources) -> Self {
        let m = sources.material::<TableHalf>();
        match sources {
            Sources::Rounds18(_) => PLAN_18.keys(&m).folded(),
            Sources::Rounds24(_, _) => PLAN_24.keys(&m).folded(),
        }
    }
}
