// Where each subkey comes from, as RFC 3713 lists them: in groups, of which no slot is left to look at once compiled; `camellia_rounds` has lists.
use crate::keys::{FlKeys, Group, Groups, Subkeys};
use camellia::plan::Slot::{Left, Right};
use camellia::plan::Source::{KA, KB, KL, KR};
use camellia::plan::{Slot, Whitening};

// For 16-byte keys.
pub(crate) const PLAN_18: Subkeys<Slot> = Subkeys {
    kw: Whitening {
        kw1: Left(KL, 0),
        kw2: Right(KL, 0),
        kw3: Left(KA, 111),
        kw4: Right(KA, 111),
    },
    groups: Groups {
        first: [
            Left(KA, 0),
            Right(KA, 0),
            Left(KL, 15),
            Right(KL, 15),
            Left(KA, 15),
            Right(KA, 15),
        ],
        second: Group {
            fl: FlKeys {
                left: Left(KA, 30),
                right: Right(KA, 30),
            },
            rounds: [
                Left(KL, 45),
                Right(KL, 45),
                Left(KA, 45),
                Right(KL, 60),
                Left(KA, 60),
                Right(KA, 60),
            ],
        },
        third: Group {
            fl: FlKeys {
                left: Left(KL, 77),
                right: Right(KL, 77),
            },
            rounds: [
                Left(KL, 94),
                Right(KL, 94),
                Left(KA, 94),
                Right(KA, 94),
                Left(KL, 111),
                Right(KL, 111),
            ],
        },
        fourth: None,
    },
};

// For 24- and 32-byte keys.
pub(crate) const PLAN_24: Subkeys<Slot> = Subkeys {
    kw: Whitening {
        kw1: Left(KL, 0),
        kw2: Right(KL, 0),
        kw3: Left(KB, 111),
        kw4: Right(KB, 111),
    },
    groups: Groups {
        first: [
            Left(KB, 0),
            Right(KB, 0),
            Left(KR, 15),
            Right(KR, 15),
            Left(KA, 15),
            Right(KA, 15),
        ],
        second: Group {
            fl: FlKeys {
                left: Left(KR, 30),
                right: Right(KR, 30),
            },
            rounds: [
                Left(KB, 30),
                Right(KB, 30),
                Left(KL, 45),
                Right(KL, 45),
                Left(KA, 45),
                Right(KA, 45),
            ],
        },
        third: Group {
            fl: FlKeys {
                left: Left(KL, 60),
                right: Right(KL, 60),
            },
            rounds: [
                Left(KR, 60),
                Right(KR, 60),
                Left(KB, 60),
                Right(KB, 60),
                Left(KL, 77),
                Right(KL, 77),
            ],
        },
        fourth: Some(Group {
            fl: FlKeys {
                left: Left(KA, 77),
                right: Right(KA, 77),
            },
            rounds: [
                Left(KR, 94),
                Right(KR, 94),
                Left(KA, 94),
                Right(KA, 94),
                Left(KL, 111),
                Right(KL, 111),
            ],
        }),
    },
};
