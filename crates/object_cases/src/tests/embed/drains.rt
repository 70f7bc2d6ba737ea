//! Drains, and asynchronous ones.

use super::replies::{SECOND, Told};
use super::tested::{MPSAFE, MUTEX, Row, Step};

pub(crate) const LISTS: &[&[Row]] = &[
    // At rest.
    &[
        (Step::Init(0, MPSAFE), 0, Told::Any),
        (Step::DrainTry(0, false), 0, Told::Drained(-1, 0)),
        (Step::Reset(0, SECOND, 8), 0, Told::Any),
        (Step::DrainTry(0, false), 0, Told::Drained(1, 1)),
        (Step::Advance(SECOND), 0, Told::Any),
    ],
    // It takes away what is armed, waits for the end of the service, which says so, and its code is 1 then.
    &[
        (Step::Init(0, MPSAFE), 0, Told::Any),
        (Step::Reset(0, SECOND, 8), 0, Told::Any),
        (Step::Advance(SECOND), 1, Told::Any),
        (Step::Next, 0, Told::Any),
        (Step::Reset(0, 2 * SECOND, 8), 0, Told::Any),
        (Step::DrainTry(0, false), 0, Told::Wait(1)),
        (Step::Reset(0, 3 * SECOND, 8), 0, Told::NotArmed),
        (Step::End, 0, Told::Ended(0, 1)),
        (Step::DrainTry(0, true), 0, Told::Drained(1, 0)),
    ],
    // Its code is -1 where there was nothing to take away, and nothing is armed after it.
    &[
        (Step::Init(0, MPSAFE), 0, Told::Any),
        (Step::Reset(0, SECOND, 8), 0, Told::Any),
        (Step::Advance(SECOND), 1, Told::Any),
        (Step::Next, 0, Told::Any),
        (Step::DrainTry(0, false), 0, Told::Wait(0)),
        (Step::End, 0, Told::Ended(0, 1)),
        (Step::DrainTry(0, false), 0, Told::Drained(-1, 0)),
    ],
    // At rest it is a stop, and no end names its function.
    &[
        (Step::Init(0, MPSAFE), 0, Told::Any),
        (Step::AsyncDrain(0, 600), 0, Told::Stopped(-1, 0)),
        (Step::Reset(0, SECOND, 8), 0, Told::Any),
        (Step::AsyncDrain(0, 600), 0, Told::Stopped(1, 1)),
        (Step::Reset(0, SECOND, 8), 0, Told::Any),
        (Step::Advance(SECOND), 1, Told::Any),
        (Step::Next, 0, Told::Any),
        (Step::End, 0, Told::Ended(0, 0)),
    ],
    // Where its function runs the answer is 0, and the end of that service names the function, once.
    &[
        (Step::Init(0, MPSAFE), 0, Told::Any),
        (Step::Reset(0, SECOND, 8), 0, Told::Any),
        (Step::Advance(SECOND), 1, Told::Any),
        (Step::Next, 0, Told::Any),
        (Step::AsyncDrain(0, 600), 0, Told::Stopped(0, 0)),
        (Step::AsyncDrain(0, 700), 0, Told::Busy),
        (Step::Reset(0, 2 * SECOND, 8), 0, Told::NotArmed),
        (Step::End, 0, Told::Ended(600, 0)),
        (Step::Reset(0, 2 * SECOND, 8), 0, Told::Any),
        (Step::Advance(2 * SECOND), 1, Told::Any),
        (Step::Next, 0, Told::Any),
        (Step::End, 0, Told::Ended(0, 0)),
    ],
    // A call that waits for its lock is not cancelled by it.
    &[
        (Step::Init(0, MUTEX), 0, Told::Any),
        (Step::Reset(0, SECOND, 8), 0, Told::Any),
        (Step::Advance(SECOND), 1, Told::Any),
        (Step::Next, 0, Told::Any),
        (Step::AsyncDrain(0, 600), 0, Told::Stopped(0, 0)),
        (Step::Begin, 0, Told::GoOn(8)),
        (Step::End, 0, Told::Ended(600, 0)),
    ],
];
