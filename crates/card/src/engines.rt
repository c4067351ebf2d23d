// The engines of a card.
ghost use Rattle.std.specs.Prelude.{◌≡◌, true, IfOk};
ghost use Rattle.std.specs.Result.{result_err};
ghost use Rattle.label.specs.Told.{told};
ghost use Rattle.law.specs.Kind.{keys_of, idle as idle_of};
ghost use Rattle.law.specs.Checks.{first_of};
ghost use Rattle.law.specs.Model.{second_keys};
ghost use Rattle.sealed_store.specs.Told.{kind_of, keys_in};
ghost use Rattle.card.specs.Cards.{fitting, key_checks};

use engine::Engine;
use label::label::Label;
use refusal::Refusal;
use sealed_store::keys;
use sealing::pair::Pair;

// `old` holds the pair in force, and `new` the pair that a key change goes to.
// No Option: engines that a state doesn't use are overwritten, and hold sixteen zero bytes, so that an ejected card keeps no subkeys.
#[derive(Drop)]
pub(crate) struct Engines<E> {
    pub(crate) old: Pair<E>,
    pub(crate) new: Pair<E>,
}

// Whether the pairs have the sizes that the label asks for: a second one in a change alone. The label is read off the store
// and the pairs are lent, so no struct has both.
pub(crate) fn fits(label: &Label, pair: &[u8], second: &[u8]) -> bool
    ensures { result ≡ fitting (told label.now) pair.now second.now }
{
    card_labels::sized(label, pair)
        && match label.next {
            None => second.is_empty(),
            Some(_) => second.len() == pair.len(),
        }
}

impl<E: Engine + Drop> Engines<E> {
    pub(crate) fn idle() -> Self
        ensures old { keys_in E.Engine result.old ≡ idle_of (kind_of E.Engine) }
        ensures new { keys_in E.Engine result.new ≡ idle_of (kind_of E.Engine) }
    {
        Engines {
            old: keys::idle(),
            new: keys::idle(),
        }
    }

    // Under the pairs whose check values the label has. Their sizes are looked at before: a call clears the places of its engines
    // as it begins.
    pub(crate) fn loaded(label: &Label, pair: &[u8], second: &[u8]) -> Result<Self, Refusal>
        requires { fitting (told label.now) pair.now second.now ≡ true }
        ensures refused { result_err result ≡ first_of (key_checks (kind_of E.Engine) (told label.now) pair.now second.now) }
        ensures old { IfOk result (λ k. keys_in E.Engine k.old ≡ keys_of (kind_of E.Engine) pair.now) }
        ensures new { IfOk result (λ k. keys_in E.Engine k.new ≡ second_keys (kind_of E.Engine) (told label.now).next second.now) }
    {
        let old = keys::loaded::<E>(pair)?;
        if keys::check_value(&old) != label.check {
            return Err(Refusal::OtherKeys);
        }
        let Some(next) = label.next else {
            return Ok(Engines {
                old,
                new: keys::idle(),
            });
        };
        let new = keys::loaded::<E>(second)?;
        if keys::check_value(&new) != next {
            return Err(Refusal::OtherKeys);
        }
        Ok(Engines { old, new })
    }
}
