// Reading and writing the data frames of a mounted card.
ghost use Rattle.std.specs.Prelude.{◌≡◌, ℕ, false, length, is_ok};
ghost use Rattle.std.specs.Result.{result_err};
ghost use Rattle.octets.specs.Octets.{Bytes};
ghost use Rattle.law.specs.Calls.{read, write, got, kept};
ghost use Rattle.law.specs.Checks.{first_of};
ghost use Rattle.law.specs.Model.{keys_for};
ghost use Rattle.calls.specs.Replies.{answer_of};
ghost use Rattle.sealed_store.specs.Told.{keys_in, store_in};
ghost use Rattle.card.specs.Cards.{card_in, slot_checks, Does};

use crate::belongs::{Kind, belongs};
use crate::card::Card;
use engine::Engine;
use octets::octets;
use refusal::Refusal;
use sealed_store::{frames, keys};
use sealing::pair::Pair;
use store::Store;

// The checks of a read or a write on a mounted card, in their order.
fn check<S: Store>(store: &S, n: u64, len: usize) -> Result<(), Refusal>
    ensures { result_err result ≡ first_of (slot_checks (store_in S.Store store.now) n len) }
{
    if len != 128 {
        return Err(Refusal::CardBufferLength(n));
    }
    if n == 0 {
        return Err(Refusal::LabelFrame);
    }
    store.check(n, len)
}

impl<E: Engine + Drop, S: Store> Card<E, S> {
    // The pair under which frame n stands: in a key change, the new one up to the last frame moved.
    fn pair_of(&self, n: u64) -> &Pair<E>
        ensures { keys_in E.Engine result.now ≡ keys_for (card_in E.Engine self.now) n }
    {
        match self.label {
            Some(label) if label.next.is_some() && n <= label.moved as u64 => &self.engines.new,
            _ => &self.engines.old,
        }
    }

    // A frame's number and its buffer come apart, as in a store.
    pub fn read(&self, n: u64, buffer: &mut [u8]) -> Result<(), Refusal>
        ensures bytes { Bytes buffer.old }
        ensures done { Does E.Engine S.Store self.now (read n buffer.old) (answer_of (λ _. got buffer.new) result) self.now }
        ensures kept { is_ok result ≡ false → buffer.new ≡ buffer.old }
    {
        octets(buffer);
        belongs(self.state(), Kind::Read)?;
        check(&self.store, n, buffer.len())?;
        let mut bytes = frames::fetch(&self.store, n);
        keys::open(self.pair_of(n), n, &mut bytes);
        buffer.copy_from_slice(&bytes);
        Ok(())
    }

    pub fn write(&mut self, n: u64, buffer: &[u8]) -> Result<(), Refusal>
        ensures bytes { Bytes buffer.now }
        ensures done { Does E.Engine S.Store self.old (write n buffer.now) (answer_of (λ _. kept) result) self.new }
    {
        octets(buffer);
        belongs(self.state(), Kind::Write)?;
        check(&self.store, n, buffer.len())?;
        let mut bytes = [0; 128];
        bytes.copy_from_slice(buffer);
        keys::seal(self.pair_of(n), n, &mut bytes);
        frames::put(&mut self.store, n, &bytes);
        Ok(())
    }
}
