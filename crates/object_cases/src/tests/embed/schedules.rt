//! Schedules: the function and the argument of the last reset.

use super::replies::{BLANK, SECOND, Told};
use super::tested::{HERE, MPSAFE, NEVER, Row, Step};
use co_embed::{CalloutReply, When};

const IN_A_SECOND: When = When {
    due: SECOND,
    prec: 0,
    cpu: HERE,
};

const WIDE: u64 = 0xffff_ffff_ffff_fff0;

const CALLS_WIDE: CalloutReply = CalloutReply {
    answer: 12,
    func: WIDE,
    arg: 0xffff_ffff_ffff_ffff,
    at: SECOND,
    ..BLANK
};

pub(crate) const LISTS: &[&[Row]] = &[
    // Without a handler.
    &[
        (Step::Init(0, MPSAFE), 0, Told::Any),
        (Step::Schedule(0, SECOND), 0, Told::NoHandler),
        (Step::Pending(0), 0, Told::Any),
        (Step::Earliest, NEVER, Told::Any),
    ],
    // With the last handler.
    &[
        (Step::Init(0, MPSAFE), 0, Told::Any),
        (Step::Reset(0, SECOND, 8), 0, Told::Any),
        (Step::Reset(0, SECOND, 9), 0, Told::Any),
        (Step::Stop(0), 0, Told::Any),
        (Step::Schedule(0, 2 * SECOND), 0, Told::Armed(2, 2 * SECOND)),
        (Step::Advance(2 * SECOND), 1, Told::Any),
        (Step::Next, 0, Told::Go(2, 9, 2 * SECOND)),
    ],
    // Of 64 bits.
    &[
        (Step::Init(0, MPSAFE), 0, Told::Any),
        (
            Step::ResetTo(0, IN_A_SECOND, WIDE, 0xffff_ffff_ffff_ffff),
            0,
            Told::Any,
        ),
        (Step::Advance(SECOND), 1, Told::Any),
        (Step::Next, 0, Told::Is(CALLS_WIDE)),
    ],
];
