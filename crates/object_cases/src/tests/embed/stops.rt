//! A stop, with each code that callout(9) has for it.

use super::replies::{SECOND, Told};
use super::tested::{EAGAIN, MPSAFE, MUTEX, Row, Step};

pub(crate) const LISTS: &[&[Row]] = &[
    // 1: it was pending. -1: it was not set, or serviced already.
    &[
        (Step::Init(0, MPSAFE), 0, Told::Any),
        (Step::Stop(0), 0, Told::Stopped(-1, 0)),
        (Step::Reset(0, SECOND, 8), 0, Told::Any),
        (Step::Stop(0), 0, Told::Stopped(1, 1)),
        (Step::Stop(0), 0, Told::Stopped(-1, 0)),
        (Step::Advance(SECOND), 0, Told::Any),
        (Step::Next, EAGAIN, Told::Any),
    ],
    // 0: its function runs. What was armed meanwhile is taken away all the same.
    &[
        (Step::Init(0, MPSAFE), 0, Told::Any),
        (Step::Reset(0, SECOND, 8), 0, Told::Any),
        (Step::Advance(SECOND), 1, Told::Any),
        (Step::Next, 0, Told::Any),
        (Step::Stop(0), 0, Told::Stopped(0, 0)),
        (Step::Reset(0, 2 * SECOND, 8), 0, Told::Armed(1, 2 * SECOND)),
        (Step::Stop(0), 0, Told::Stopped(0, 1)),
        (Step::End, 0, Told::Ended(0, 0)),
        (Step::Advance(2 * SECOND), 0, Told::Any),
    ],
    // 1: the call that waits for the callout's lock is cancelled.
    &[
        (Step::Init(0, MUTEX), 0, Told::Any),
        (Step::Reset(0, SECOND, 8), 0, Told::Any),
        (Step::Advance(SECOND), 1, Told::Any),
        (Step::Next, 0, Told::Any),
        (Step::Stop(0), 0, Told::Stopped(1, 0)),
        (Step::Begin, 0, Told::Skip),
        (Step::End, 0, Told::Ended(0, 0)),
        (Step::Stop(0), 0, Told::Stopped(-1, 0)),
    ],
];
