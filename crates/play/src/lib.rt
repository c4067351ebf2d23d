// Lists of calls played on cards, and what they come to.
#![tactic(auto)]

ghost use Rattle.std.specs.Prelude.{◌≡◌};
ghost use Rattle.law.specs.Kind.{Kind, Lawful};
ghost use Rattle.law.specs.Store.{Store, Sized as SizedStore};
ghost use Rattle.law.specs.Calls.{Given, left_by};
ghost use Rattle.law.specs.Model.{Card, off, act};
ghost use Rattle.calls.specs.Outcomes.{ComesTo};
ghost use Rattle.calls.specs.Replies.{answer_by};
ghost use Rattle.calls.specs.Turns.{call_of, buffer_in};
ghost use Rattle.play.specs.Played.{Ran, BothPlayed};

use calls::{Reply, Request, Turn};
use refusal::Refusal;

// A card that takes one call at a time, put new on a store.
pub trait CardCalls: Sized {
    type Held;

    // of the kind of card: its kind of engine, and what a store tells
    ghost kind: { Kind };

    ghost told: { Self.Held → Store };

    // of a card: what it holds, and what its store tells
    ghost card: { Self → Card };

    ghost store: { Self → Store };

    fn put_on(held: Self::Held) -> Self
        ensures card { card result ≡ off kind }
        ensures store { store result ≡ told held };

    // The bytes that a request brings are left as the answer says: keys zeroed, and a frame in the buffer of a read.
    fn call(&mut self, request: &mut Request) -> Result<Reply, Refusal>
        ensures given { Given (call_of request.old) }
        ensures came { ComesTo (act kind (card self.old) (store self.old) (call_of request.old)) (answer_by result (buffer_in request.new)) (card self.new) (store self.new) }
        ensures left { call_of request.new ≡ left_by (call_of request.old) (answer_by result (buffer_in request.new)) };

    ghost lawful: { Lawful kind };

    ghost sized: { (c : Self) → SizedStore (store c) };
}

// Plays the turns on a card, one after the other.
fn play<C: CardCalls>(card: &mut C, turns: &mut [Turn])
    ensures { Ran C.CardCalls.kind (C.CardCalls.card card.old) (C.CardCalls.card card.new) (C.CardCalls.store card.old) (C.CardCalls.store card.new) turns.old turns.new }
{
    for turn in turns.iter_mut() {
        turn.reply = Some(card.call(&mut turn.request));
    }
}

// Plays a list of turns on a new card on each of two stores. The law of a card stands in its contract, whole.
pub fn play_both<A: CardCalls, B: CardCalls>(
    first: A::Held,
    second: B::Held,
    turns: &mut [Turn],
    others: &mut [Turn],
) -> (A, B)
    ensures { BothPlayed A.CardCalls.kind B.CardCalls.kind (A.CardCalls.told first) (B.CardCalls.told second) (A.CardCalls.store result.0) (B.CardCalls.store result.1) turns.old turns.new others.old others.new }
{
    let mut one = A::put_on(first);
    let mut other = B::put_on(second);
    play(&mut one, turns);
    play(&mut other, others);
    (one, other)
}
