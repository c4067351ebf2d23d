// A card of any kind of engine on any store takes calls as values, so that lists of them can be played.
ghost use Rattle.sealed_store.specs.Told.{kind_of, store_in};
ghost use Rattle.card.specs.Cards.{card_in};
ghost use Rattle.std.proofs.Common.{rules};

use crate::card::Card;
use calls::{Reply, Request};
use engine::Engine;
use play::CardCalls;
use refusal::Refusal;
use store::Store;

impl<E: Engine + Drop, S: Store> CardCalls for Card<E, S> {
    type Held = S;

    ghost kind = { kind_of E.Engine };

    ghost told = { λ s. store_in S.Store s };

    ghost card = { λ c. card_in E.Engine c };

    ghost store = { λ c. store_in S.Store c.store };

    ghost lawful = { Prim.search rules };

    ghost sized = { Prim.search rules };

    fn put_on(held: S) -> Self {
        Card::new(held)
    }

    fn call(&mut self, request: &mut Request) -> Result<Reply, Refusal> {
        Ok(match request {
            Request::Make(pair) => Reply::Made(self.make(pair)?),
            Request::Mount(pair, second) => Reply::Mounted(self.mount(pair, second)?),
            Request::Eject => {
                self.eject()?;
                Reply::Ejected
            }
            Request::Read(n, buffer) => {
                self.read(*n, buffer)?;
                Reply::Read
            }
            Request::Write(n, buffer) => {
                self.write(*n, buffer)?;
                Reply::Written
            }
            Request::Start(pair) => Reply::Started(self.start(pair)?),
            Request::Step => Reply::Stepped(self.step()?),
            Request::Status => Reply::Told(self.status()),
        })
    }
}
