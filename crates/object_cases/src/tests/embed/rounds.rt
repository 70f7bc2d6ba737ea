//! A callout is armed, comes due, and is serviced.

use super::replies::{BLANK, SECOND, Told};
use super::tested::{EAGAIN, MPSAFE, MUTEX, Row, Step};
use co_embed::CalloutReply;

const REPLACED: CalloutReply = CalloutReply {
    answer: 1,
    code: 1,
    n: 1,
    at: 2 * SECOND,
    removed: 1,
    ..BLANK
};

pub(crate) const LISTS: &[&[Row]] = &[
    // It fires once.
    &[
        (Step::Init(0, MPSAFE), 0, Told::Any),
        (Step::Reset(0, SECOND, 8), 0, Told::Armed(0, SECOND)),
        (Step::Advance(SECOND - 1), 0, Told::Any),
        (Step::Next, EAGAIN, Told::Any),
        (Step::Advance(SECOND + 5), 1, Told::Any),
        (Step::Next, 0, Told::Go(0, 8, SECOND + 5)),
        (Step::End, 0, Told::Ended(0, 0)),
        (Step::Next, EAGAIN, Told::Any),
        (Step::Advance(9 * SECOND), 0, Told::Any),
        (Step::Next, EAGAIN, Told::Any),
        (Step::Cpu, 0, Told::Any),
    ],
    // A function that is reset before it was called is called once, by the last reset.
    &[
        (Step::Init(0, MPSAFE), 0, Told::Any),
        (Step::Reset(0, SECOND, 8), 0, Told::Any),
        (Step::Reset(0, 2 * SECOND, 9), 0, Told::Is(REPLACED)),
        (Step::Advance(SECOND), 0, Told::Any),
        (Step::Advance(2 * SECOND), 1, Told::Any),
        (Step::Next, 0, Told::Go(1, 9, 2 * SECOND)),
    ],
    // A time in the past is moved to the present.
    &[
        (Step::Init(0, MPSAFE), 0, Told::Any),
        (Step::Advance(5 * SECOND), 0, Told::Any),
        (Step::Reset(0, SECOND, 8), 0, Told::Armed(0, 5 * SECOND)),
        (Step::Advance(5 * SECOND), 1, Told::Any),
        (Step::Next, 0, Told::Go(0, 8, 5 * SECOND)),
    ],
    // Its lock is taken between `next` and `begin`.
    &[
        (Step::Init(0, MUTEX), 0, Told::Any),
        (Step::Reset(0, SECOND, 8), 0, Told::Any),
        (Step::Advance(SECOND), 1, Told::Any),
        (Step::Next, 0, Told::Hold(SECOND)),
        (Step::Begin, 0, Told::GoOn(8)),
        (Step::End, 0, Told::Ended(0, 0)),
    ],
];
