//! Pending, active and deactivate, and the earliest time.

use super::replies::{SECOND, Told};
use super::tested::{EAGAIN, MPSAFE, NEVER, Row, Step};

pub(crate) const LISTS: &[&[Row]] = &[
    // Armed: pending and active. A deactivate clears active alone.
    &[
        (Step::Init(0, MPSAFE), 0, Told::Any),
        (Step::Pending(0), 0, Told::Any),
        (Step::Active(0), 0, Told::Any),
        (Step::Reset(0, SECOND, 8), 0, Told::Any),
        (Step::Pending(0), 1, Told::Any),
        (Step::Active(0), 1, Told::Any),
        (Step::Deactivate(0), 0, Told::Any),
        (Step::Pending(0), 1, Told::Any),
        (Step::Active(0), 0, Told::Any),
    ],
    // Not pending once it is in service, but active still, until it is stopped: its function's run does not clear that.
    &[
        (Step::Init(0, MPSAFE), 0, Told::Any),
        (Step::Reset(0, SECOND, 8), 0, Told::Any),
        (Step::Advance(SECOND), 1, Told::Any),
        (Step::Next, 0, Told::Any),
        (Step::Pending(0), 0, Told::Any),
        (Step::Active(0), 1, Told::Any),
        (Step::End, 0, Told::Any),
        (Step::Active(0), 1, Told::Any),
        (Step::Stop(0), 0, Told::Any),
        (Step::Active(0), 0, Told::Any),
    ],
    // Nothing is due before it. It is the first of what waits, or the last advance's time where something has come due, and none
    // exactly where nothing is armed.
    &[
        (Step::Init(0, MPSAFE), 0, Told::Any),
        (Step::Init(1, MPSAFE), 0, Told::Any),
        (Step::Earliest, NEVER, Told::Any),
        (Step::Reset(0, 900 * SECOND, 8), 0, Told::Any),
        (Step::Reset(1, 2 * SECOND + 7, 8), 0, Told::Any),
        (Step::Earliest, 8_589_934_599, Told::Any),
        (Step::Advance(2 * SECOND + 6), 0, Told::Any),
        (Step::Advance(3 * SECOND), 1, Told::Any),
        (Step::Earliest, 12_884_901_888, Told::Any),
        (Step::Next, 0, Told::Any),
        (Step::Earliest, 3_865_470_566_400, Told::Any),
        (Step::End, 0, Told::Any),
        (Step::Next, EAGAIN, Told::Any),
        (Step::Stop(0), 0, Told::Any),
        (Step::Earliest, NEVER, Told::Any),
    ],
];
