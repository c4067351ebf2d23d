// The subkeys that a plan takes from the four sources.
ghost use Rattle.std.specs.Prelude.{◌≡◌};
ghost use Rattle.camellia.specs.Keys.{layer_of};
ghost use Rattle.camellia_rounds.specs.Sources.{schedule_from};
ghost use Rattle.camellia_rounds.specs.Told.{schedule_of};

use crate::half::Half;
use crate::schedule::Schedule;
use crate::sources::Sources;
use crate::subkey::{subkey, whitening};
use crate::tables::Plan;
use camellia::plan::{Layer, Material, Slot};

// Called for each layer of each key: a call that gives a layer through memory takes longer than the layer.
#[inline(always)]
fn layer(m: &Material, slots: Layer<Slot>) -> Layer<u64>
    ensures { result ≡ layer_of m.now slots }
{
    match slots {
        Layer::Round(k) => Layer::Round(subkey(m, k)),
        Layer::Fl(a, b) => Layer::Fl(subkey(m, a), subkey(m, b)),
    }
}

impl Schedule {
    // The key's layers.
    pub(crate) fn layers(&self) -> &[Layer<u64>]
        ensures { result.now ≡ (schedule_of self.now).layers }
    {
        &self.layers[..self.count]
    }

    pub(crate) fn of<H: Half>(sources: Sources) -> Self
        ensures { schedule_of result ≡ schedule_from sources }
    {
        let m = sources.material::<H>();
        let plan = Plan::of(sources);
        // A loop: with an array's `map`, whose elements wait in an iterator first, frames took 1.6 to 2 times as long.
        // It writes by index: after an adapter of `iter_mut` nothing is known of the array, so no `zip`.
        let mut layers = [Layer::Round(0); 27];
        for (i, slots) in plan.layers.iter().enumerate() {
            layers[i] = layer(&m, *slots);
        }
        Schedule {
            kw: whitening(&m, plan.kw),
            layers,
            count: plan.layers.len(),
        }
    }
}
