// Why a call was refused: one enum for the whole project, and the three numbers that each case carries.
#![tactic(auto)]

ghost use Rattle.std.specs.Prelude.{◌≡◌};
ghost use Rattle.refusal.specs.Code.{code, layer_number};

// The layer that refused, with its number.
#[derive(Clone, Copy, PartialEq, Eq, Debug)]
pub enum Layer {
    Card = 1,
    Store = 2,
    Cipher = 3,
}

#[derive(Clone, Copy, PartialEq, Eq, Debug)]
pub enum Refusal {
    // the call does not belong to the card's state
    WrongState,
    // a pair of keys has not the length that is wanted: 32, 48 or 64 bytes, and by a label's keybits or beside another pair that one of them
    PairLength,
    // the engine takes no key of this length
    KeyLength,
    // a buffer given to a card for this frame has not 128 bytes
    CardBufferLength(u64),
    // a buffer given to a store for this frame has not 128 bytes
    BufferLength(u64),
    // a store has no room for a label and a data frame
    TooFewFrames,
    // frame 0 is the label's, and no data frame
    LabelFrame,
    // the store has no such frame
    FrameNumber(u64),
    // the frame is worn
    WornFrame(u64),
    // frame 0 is not a label
    NotLabel,
    // the label is of another cipher or another number of frames
    OtherCard,
    // the pair, or the second pair, is not the one whose check value the label has
    OtherKeys,
    // twenty other frames are marked as worn
    TooManyWorn(u64),
}

impl Layer {
    pub fn number(self) -> u8
        ensures { result ≡ layer_number self }
    {
        self as u8
    }
}

// The values of a case.
#[derive(Clone, Copy)]
struct Values {
    number: u8,
    layer: Layer,
    frame: u64,
}

impl Refusal {
    // A table, since a case with a frame can't have its number at the enum.
    fn values(self) -> Values
        ensures number { result.number ≡ (code self).number }
        ensures layer { result.layer ≡ (code self).layer }
        ensures frame { result.frame ≡ (code self).frame }
    {
        let (number, layer, frame) = match self {
            Refusal::WrongState => (1, Layer::Card, 0),
            Refusal::PairLength => (2, Layer::Card, 0),
            Refusal::KeyLength => (2, Layer::Cipher, 0),
            Refusal::CardBufferLength(n) => (3, Layer::Card, n),
            Refusal::BufferLength(n) => (3, Layer::Store, n),
            Refusal::TooFewFrames => (4, Layer::Card, 1),
            Refusal::LabelFrame => (4, Layer::Card, 0),
            Refusal::FrameNumber(n) => (4, Layer::Store, n),
            Refusal::WornFrame(n) => (5, Layer::Store, n),
            Refusal::NotLabel => (6, Layer::Card, 0),
            Refusal::OtherCard => (7, Layer::Card, 0),
            Refusal::OtherKeys => (8, Layer::Card, 0),
            Refusal::TooManyWorn(n) => (9, Layer::Store, n),
        };
        Values {
            number,
            layer,
            frame,
        }
    }

    pub fn number(self) -> u8
        ensures { result ≡ (code self).number }
    {
        self.values().number
    }

    pub fn layer(self) -> Layer
        ensures { result ≡ (code self).layer }
    {
        self.values().layer
    }

    pub fn frame(self) -> u64
        ensures { result ≡ (code self).frame }
    {
        self.values().frame
    }
}
