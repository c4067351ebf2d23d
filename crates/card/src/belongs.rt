// Which calls belong to which state of a card.
ghost use Rattle.std.specs.Prelude.{◌≡◌};
ghost use Rattle.calls.specs.Replies.{state_number};
ghost use Rattle.card.specs.Cards.{belonging};

use calls::State;
use refusal::Refusal;

// The calls that a state can refuse; the status is told in every state.
#[derive(Clone, Copy)]
pub enum Kind {
    Make,
    Mount,
    Eject,
    Read,
    Write,
    Start,
    Step,
}

// The rule of the project: a match on the card's own state and the call together decides refusal 1, for every call here.
pub fn belongs(state: State, call: Kind) -> Result<(), Refusal>
    ensures { result ≡ belonging (state_number state) call }
{
    match (state, call) {
        (State::Unmounted, Kind::Make | Kind::Mount) => Ok(()),
        (State::AtRest | State::Changing, Kind::Eject | Kind::Read | Kind::Write) => Ok(()),
        (State::AtRest, Kind::Start) => Ok(()),
        (State::Changing, Kind::Step) => Ok(()),
        _ => Err(Refusal::WrongState),
    }
}
