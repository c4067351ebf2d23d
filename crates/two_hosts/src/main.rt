// A card's history on two hosts at once, each on its own path through the cipher: made on one pair of hosts, ejected half way
// through a key change, and taken on by another pair. Prints each answer and whether the hosts agreed.
#![tactic(auto)]

mod history;
mod lines;

use calls::Turn;
use camellia_byte::ByteCamellia;
use camellia_long::cipher::LongCamellia;
use camellia_word::WordCamellia;
use card::card::Card;
use history::{abroad, at_home, blank, grown, longer};
use lines::Report;
use play::{CardCalls, play_both};
use store::dump::Dump;
use store::flat::FlatImage;

type Home = (Card<ByteCamellia, Dump>, Card<LongCamellia, Dump>);

type Abroad = (Card<WordCamellia, Dump>, Card<ByteCamellia, Dump>);

type Grown = (Card<LongCamellia, FlatImage>, Card<WordCamellia, FlatImage>);

// Plays the turns on new cards on two stores, and prints what both answered.
fn played<A: CardCalls + Drop, B: CardCalls + Drop>(
    rt: &HostRuntime,
    report: &mut Report,
    stores: (A::Held, B::Held),
    turns: (Vec<Turn>, Vec<Turn>),
) -> anyhow::Result<(A, B)> {
    let (first, second) = stores;
    let (mut turns, mut others) = turns;
    let cards = play_both(first, second, &mut turns, &mut others);
    report.print(rt, &turns, &others)?;
    Ok(cards)
}

fn run(rt: &HostRuntime) -> anyhow::Result<()> {
    let heap = rt.alloc();
    let mut report = Report::new(heap);
    let stores = (blank(heap)?, blank(heap)?);
    let turns = (at_home(heap)?, at_home(heap)?);
    let (one, other): Home = played(rt, &mut report, stores, turns)?;

    let stores = (one.into_store(), other.into_store());
    let turns = (abroad(heap)?, abroad(heap)?);
    let (one, other): Abroad = played(rt, &mut report, stores, turns)?;

    let stores = (grown(one.into_store())?, grown(other.into_store())?);
    let turns = (longer(heap)?, longer(heap)?);
    let (_, _): Grown = played(rt, &mut report, stores, turns)?;
    report.close(rt)
}

fn main(rt: HostRuntime) -> anyhow::Result<()> {
    run(&rt)
}
