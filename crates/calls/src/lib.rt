// The calls of a card as values: requests that bring their own bytes, and replies.
#![tactic(auto)]

ghost use Rattle.std.specs.Prelude.{◌≡◌};
ghost use Rattle.calls.specs.Replies.{state_number};

use refusal::Refusal;

#[derive(Clone, Copy, PartialEq, Eq, Debug)]
pub enum State {
    Unmounted = 0,
    AtRest = 1,
    // a key change is under way
    Changing = 2,
}

impl State {
    pub fn number(self) -> u8
        ensures { result ≡ state_number self }
    {
        self as u8
    }
}

// The frame that a step moved, or passed over since it is worn.
// Two flags, and no value that only one of their cases has: a frame may be passed over, or not, in the last step and in any other.
#[derive(Clone, Copy, PartialEq, Eq, Debug)]
pub struct Stepped {
    pub frame: u64,
    pub passed_over: bool,
    // whether the key change ended with it
    pub over: bool,
}

// What a card tells of itself: three numbers in every state, and zeros while it is unmounted, as the law says.
#[derive(Clone, Copy, PartialEq, Eq, Debug)]
pub struct Status {
    pub state: State,
    pub frames: u64,
    pub moved: u64,
}

// A call with its bytes: a pair, a pair and a second one, or a frame buffer.
#[derive(Drop)]
pub enum Request {
    Make(Vec<u8>),
    Mount(Vec<u8>, Vec<u8>),
    Eject,
    Read(u64, Vec<u8>),
    Write(u64, Vec<u8>),
    Start(Vec<u8>),
    Step,
    Status,
}

// What an accepted call answers. What a read gives is left in the buffer that came with it.
#[derive(Clone, Copy, PartialEq, Eq, Debug)]
pub enum Reply {
    // how many frames were sealed
    Made(u64),
    Mounted(State),
    Ejected,
    Read,
    Written,
    // how many steps the change will take
    Started(u64),
    Stepped(Stepped),
    Told(Status),
}

// A request, and once a card has taken it the reply or the refusal.
#[derive(Drop)]
pub struct Turn {
    pub request: Request,
    pub reply: Option<Result<Reply, Refusal>>,
}
