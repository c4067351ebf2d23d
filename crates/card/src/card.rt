// A card: put on a store, ejected, and what it tells of itself.
ghost use Rattle.std.specs.Prelude.{◌≡◌};
ghost use Rattle.law.specs.Calls.{eject, ejected, status};
ghost use Rattle.law.specs.Model.{off, state_of};
ghost use Rattle.calls.specs.Replies.{state_number, answer_of, status_answer};
ghost use Rattle.sealed_store.specs.Told.{kind_of};
ghost use Rattle.card.specs.Cards.{card_in, Does};

use crate::belongs::{Kind, belongs};
use crate::engines::Engines;
use calls::{State, Status};
use engine::Engine;
use label::label::Label;
use refusal::Refusal;
use store::Store;

// While mounted it has its label, which tells its state.
#[derive(Drop)]
pub struct Card<E, S> {
    pub(crate) label: Option<Label>,
    pub(crate) engines: Engines<E>,
    pub(crate) store: S,
}

impl<E: Engine + Drop, S: Store> Card<E, S> {
    // A new card is unmounted.
    pub fn new(store: S) -> Self
        ensures card { card_in E.Engine result ≡ off (kind_of E.Engine) }
        ensures store { result.store ≡ store }
    {
        Card {
            label: None,
            engines: Engines::idle(),
            store,
        }
    }

    // The store as it stands, whatever the state.
    pub fn into_store(self) -> S
        ensures { result ≡ self.store }
    {
        self.store
    }

    // The state that its label tells.
    pub(crate) fn state(&self) -> State
        ensures { state_number result ≡ state_of (card_in E.Engine self.now) }
    {
        match self.label {
            None => State::Unmounted,
            Some(Label { next: None, .. }) => State::AtRest,
            Some(_) => State::Changing,
        }
    }

    pub fn status(&self) -> Status
        ensures { Does E.Engine S.Store self.now status (status_answer result) self.now }
    {
        let Some(label) = self.label else {
            return Status {
                state: State::Unmounted,
                frames: 0,
                moved: 0,
            };
        };
        Status {
            state: self.state(),
            frames: self.store.count(),
            moved: label.moved as u64,
        }
    }

    pub fn eject(&mut self) -> Result<(), Refusal>
        ensures { Does E.Engine S.Store self.old eject (answer_of (λ _. ejected) result) self.new }
    {
        belongs(self.state(), Kind::Eject)?;
        self.label = None;
        self.engines = Engines::idle();
        Ok(())
    }
}
