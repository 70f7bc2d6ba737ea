//! The lane of callouts that the clock interrupt runs.

use super::replies::{BLANK, SECOND, Told};
use super::tested::{EAGAIN, EINVAL, ENOENT, EPERM, MPSAFE, MUTEX, Row, Step};
use co_embed::CalloutReply;

const CALLS_DIRECT: CalloutReply = CalloutReply {
    answer: 12,
    func: 70,
    arg: 9,
    at: SECOND,
    id: 3,
    ..BLANK
};

const ENDED_DIRECT: CalloutReply = CalloutReply {
    answer: 15,
    id: 3,
    ..BLANK
};

pub(crate) const LISTS: &[&[Row]] = &[
    // A direct callout has no lock.
    &[
        (Step::Init(3, MUTEX), EINVAL, Told::Any),
        (Step::Pending(3), ENOENT, Told::Any),
        (Step::Init(3, MPSAFE), 0, Told::Any),
        (Step::Pending(3), 0, Told::Any),
    ],
    // The interrupt services callout 3 beside the CPU, which has callout 0 in service.
    &[
        (Step::Init(0, MPSAFE), 0, Told::Any),
        (Step::Init(3, MPSAFE), 0, Told::Any),
        (Step::Reset(0, SECOND, 8), 0, Told::Any),
        (Step::Reset(3, SECOND, 9), 0, Told::Any),
        (Step::Advance(SECOND), 2, Told::Any),
        (Step::Next, 0, Told::Go(0, 8, SECOND)),
        (Step::NextDirect, 0, Told::Is(CALLS_DIRECT)),
        (Step::IsServing(false), 1, Told::Any),
        (Step::IsServing(true), 1, Told::Any),
    ],
    // Each end is of its own lane.
    &[
        (Step::Init(3, MPSAFE), 0, Told::Any),
        (Step::Reset(3, SECOND, 9), 0, Told::Any),
        (Step::Advance(SECOND), 1, Told::Any),
        (Step::Next, EAGAIN, Told::Any),
        (Step::NextDirect, 0, Told::Any),
        (Step::End, EPERM, Told::Any),
        (Step::EndDirect, 0, Told::Is(ENDED_DIRECT)),
        (Step::NextDirect, EAGAIN, Told::Any),
    ],
];
