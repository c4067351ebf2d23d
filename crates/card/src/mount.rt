// Mounting a card that was made here or elsewhere.
ghost use Rattle.law.specs.Calls.{mount, mounted};
ghost use Rattle.calls.specs.Replies.{answer_of, state_number};
ghost use Rattle.card.specs.Cards.{Does, Zeroed};

use crate::belongs::{Kind, belongs};
use crate::card::Card;
use crate::engines::{Engines, fits};
use calls::State;
use engine::Engine;
use label::label::Label;
use octets::octets;
use refusal::Refusal;
use sealed_store::frames;
use sealing::wiped::Wiped;
use store::Store;

impl<E: Engine + Drop, S: Store> Card<E, S> {
    // In a key change it takes both pairs; at rest the second one is empty.
    pub fn mount(&mut self, pair: &mut [u8], second: &mut [u8]) -> Result<State, Refusal>
        ensures keys { Zeroed pair.old pair.new }
        ensures second_keys { Zeroed second.old second.new }
        ensures done { Does E.Engine S.Store self.old (mount pair.old second.old) (answer_of (λ s. mounted (state_number s)) result) self.new }
    {
        octets(pair);
        octets(second);
        let first_wiped = Wiped { keys: pair };
        let second_wiped = Wiped { keys: second };
        let pair: &[u8] = first_wiped.keys;
        let second: &[u8] = second_wiped.keys;
        belongs(self.state(), Kind::Mount)?;
        let count = self.store.count();
        if count < 2 {
            return Err(Refusal::TooFewFrames);
        }
        if self.store.is_worn(0) {
            return Err(Refusal::WornFrame(0));
        }
        let label = Label::read(&frames::fetch(&self.store, 0)).ok_or(Refusal::NotLabel)?;
        let same_card = label.cipher == E::NAME && label.frames as u64 == count;
        if !same_card {
            return Err(Refusal::OtherCard);
        }
        if !fits(&label, pair, second) {
            return Err(Refusal::PairLength);
        }
        self.engines = Engines::loaded(&label, pair, second)?;
        self.label = Some(label);
        Ok(self.state())
    }
}
