//! Each errno with its cause: then neither the wheel nor what a pointer leads to has changed.

use super::replies::{BLANK, SECOND, Told};
use super::tested::{
    EBUSY, EINVAL, ENOENT, ENOMEM, EPERM, HERE, MPSAFE, MUTEX, NEVER, NOTHING, Row, Step,
};
use co_embed::{CalloutReply, Refusal, When, status};

/// 2^63, which is no time.
const LATE: u64 = 0x8000_0000_0000_0000;

const PRECISE: When = When {
    due: 0,
    prec: LATE,
    cpu: HERE,
};

/// The last time.
const LAST: CalloutReply = CalloutReply {
    answer: 1,
    at: 0x7fff_ffff_ffff_ffff,
    ..BLANK
};

pub(crate) const LISTS: &[&[Row]] = &[
    // Callout 1 is not here, nor is there a callout 4.
    &[
        (Step::Init(0, MPSAFE), 0, Told::Any),
        (Step::Reset(1, SECOND, 8), ENOENT, Told::Untouched),
        (Step::Schedule(1, SECOND), ENOENT, Told::Untouched),
        (Step::Stop(1), ENOENT, Told::Untouched),
        (Step::DrainTry(4, true), ENOENT, Told::Untouched),
        (Step::AsyncDrain(1, 600), ENOENT, Told::Untouched),
        (Step::Pending(0xffff_ffff), ENOENT, Told::Untouched),
        (Step::Active(1), ENOENT, Told::Untouched),
        (Step::Deactivate(4), ENOENT, Told::Untouched),
        (Step::HasParcel(NOTHING), 1, Told::Untouched),
        (Step::Earliest, NEVER, Told::Untouched),
    ],
    // What is no time comes before all else.
    &[
        (Step::Init(0, MPSAFE), 0, Told::Any),
        (Step::Reset(0, LATE, 8), EINVAL, Told::Untouched),
        (Step::Reset(1, LATE, 8), EINVAL, Told::Untouched),
        (Step::ScheduleTo(0, PRECISE), EINVAL, Told::Untouched),
        (Step::Advance(LATE), EINVAL, Told::Untouched),
        (Step::HasParcel(NOTHING), 1, Told::Untouched),
        (Step::Pending(0), 0, Told::Untouched),
        (Step::Active(0), 0, Told::Untouched),
        (Step::Reset(0, LATE - 1, 8), 0, Told::Is(LAST)),
    ],
    // No service is there that could go on, or end.
    &[
        (Step::Init(0, MPSAFE), 0, Told::Any),
        (Step::Begin, EPERM, Told::Untouched),
        (Step::End, EPERM, Told::Untouched),
        (Step::HasParcel(NOTHING), 1, Told::Untouched),
        (Step::Reset(0, SECOND, 8), 0, Told::Any),
        (Step::Advance(SECOND), 1, Told::Any),
        (Step::Next, 0, Told::Any),
        (Step::Begin, EPERM, Told::Go(0, 8, SECOND)),
        (Step::Next, EBUSY, Told::Go(0, 8, SECOND)),
        (Step::End, 0, Told::Any),
    ],
    // A call that waits for its lock can't end, and keeps the others waiting.
    &[
        (Step::Init(0, MUTEX), 0, Told::Any),
        (Step::Reset(0, SECOND, 8), 0, Told::Any),
        (Step::Advance(SECOND), 1, Told::Any),
        (Step::Next, 0, Told::Any),
        (Step::End, EPERM, Told::Hold(SECOND)),
        (Step::Next, EBUSY, Told::Hold(SECOND)),
        (Step::HasParcel(NOTHING), 1, Told::Hold(SECOND)),
        (Step::Begin, 0, Told::Any),
        (Step::Begin, EPERM, Told::Any),
    ],
];

/// The one that needs a heap that is full, by its number.
#[test]
fn no_memory(rt: HostRuntime) {
    let full = i64::from(status(Err(Refusal::NoMemory)));
    assert!(rt; full == ENOMEM && status(Ok(())) == 0);
}
