// Making a card new.
ghost use Rattle.law.specs.Calls.{make, made};
ghost use Rattle.calls.specs.Replies.{answer_of};
ghost use Rattle.card.specs.Cards.{Does, Zeroed};

use crate::belongs::{Kind, belongs};
use crate::card::Card;
use engine::Engine;
use octets::octets;
use refusal::Refusal;
use sealed_store::{frames, keys};
use sealing::wiped::Wiped;
use store::Store;

impl<E: Engine + Drop, S: Store> Card<E, S> {
    // Every data frame that is not worn becomes sealed zero bytes; how many there are.
    pub fn make(&mut self, pair: &mut [u8]) -> Result<u64, Refusal>
        ensures keys { Zeroed pair.old pair.new }
        ensures done { Does E.Engine S.Store self.old (make pair.old) (answer_of made result) self.new }
    {
        octets(pair);
        let wiped = Wiped { keys: pair };
        let pair: &[u8] = wiped.keys;
        belongs(self.state(), Kind::Make)?;
        let old = keys::loaded(pair)?;
        let label = card_labels::made(pair.len(), self.store.count(), &old);
        let label = label.ok_or(Refusal::TooFewFrames)?;
        if self.store.is_worn(0) {
            return Err(Refusal::WornFrame(0));
        }
        let sealed = frames::clear(&old, &mut self.store);
        frames::put(&mut self.store, 0, &label.write());
        self.label = Some(label);
        // One by one: a function clears the place of a value that it puts together as it begins, on a refusal too.
        self.engines.old = old;
        self.engines.new = keys::idle();
        Ok(sealed)
    }
}
