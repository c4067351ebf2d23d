// The subkeys that a plan takes from the four sources. Compiled into each caller, where the plan is known, no slot is looked at.
ghost use Rattle.std.specs.Prelude.{◌≡◌, map};
ghost use Rattle.camellia.specs.Keys.{subkey as subkey_of, layer_of, scheduled};
ghost use Rattle.camellia_subkeys.specs.Groups.{group_of, layers_of, plain_of};

use crate::keys::{FlKeys, Group, Groups, Subkeys};
use camellia::plan::{Material, Slot};
use camellia_rounds::subkey::{subkey, whitening};

// Key by key: with the array's `map` it stays open in the proof that each call of the closure sees the same `m`.
#[inline(always)]
fn rounds(slots: [Slot; 6], m: &Material) -> [u64; 6]
    ensures { result ≡ map (subkey_of m.now) slots }
{
    let [a, b, c, d, e, f] = slots;
    [
        subkey(m, a),
        subkey(m, b),
        subkey(m, c),
        subkey(m, d),
        subkey(m, e),
        subkey(m, f),
    ]
}

impl Group<Slot> {
    #[inline(always)]
    fn keys(self, m: &Material) -> Group<u64>
        ensures { group_of result ≡ map (layer_of m.now) (group_of self) }
    {
        Group {
            fl: FlKeys {
                left: subkey(m, self.fl.left),
                right: subkey(m, self.fl.right),
            },
            rounds: rounds(self.rounds, m),
        }
    }
}

impl Groups<Slot> {
    #[inline(always)]
    fn keys(self, m: &Material) -> Groups<u64>
        ensures { layers_of result ≡ map (layer_of m.now) (layers_of self) }
    {
        Groups {
            first: rounds(self.first, m),
            second: self.second.keys(m),
            third: self.third.keys(m),
            // A `match`: `map` is not compiled into its caller, and the keys of 24 rounds take 1.3 times as long with it.
            fourth: match self.fourth {
                None => None,
                Some(fourth) => Some(fourth.keys(m)),
            },
        }
    }
}

impl Subkeys<Slot> {
    #[inline(always)]
    pub(crate) fn keys(self, m: &Material) -> Subkeys<u64>
        ensures { plain_of result ≡ scheduled m.now self.kw (layers_of self.groups) }
    {
        Subkeys {
            kw: whitening(m, self.kw),
            groups: self.groups.keys(m),
        }
    }
}
