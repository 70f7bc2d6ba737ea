//! Callouts that come and go.

use super::replies::{SECOND, Told};
use super::tested::{EBUSY, EEXIST, EINVAL, ENOENT, MPSAFE, MUTEX, Row, Step};
use co_embed::CalloutAttr;

/// No lock that is given back.
const UNLOCKED: CalloutAttr = CalloutAttr {
    lock_kind: 0,
    lock: 0,
    returns_unlocked: 1,
};

const NO_KIND: CalloutAttr = CalloutAttr {
    lock_kind: 4,
    lock: 9,
    returns_unlocked: 0,
};

const GIVEN_BACK: CalloutAttr = CalloutAttr {
    lock_kind: 1,
    lock: 9,
    returns_unlocked: 1,
};

pub(crate) const LISTS: &[&[Row]] = &[
    // An id that is none, a kind of lock that is none, and a function that gives back a lock that it has not.
    &[
        (Step::Init(0, MPSAFE), 0, Told::Any),
        (Step::Init(4, MPSAFE), EINVAL, Told::Any),
        (Step::Init(1, UNLOCKED), EINVAL, Told::Any),
        (Step::Init(1, NO_KIND), EINVAL, Told::Any),
        (Step::Pending(1), ENOENT, Told::Any),
        (Step::Init(1, GIVEN_BACK), 0, Told::Any),
        (Step::Init(1, MPSAFE), EEXIST, Told::Any),
    ],
    // It goes where it is neither armed nor in service, and may come again.
    &[
        (Step::Init(0, MPSAFE), 0, Told::Any),
        (Step::Reset(0, SECOND, 8), 0, Told::Any),
        (Step::Fini(0), EBUSY, Told::Any),
        (Step::Advance(SECOND), 1, Told::Any),
        (Step::Next, 0, Told::Any),
        (Step::Fini(0), EBUSY, Told::Any),
        (Step::End, 0, Told::Any),
        (Step::Fini(0), 0, Told::Any),
        (Step::Fini(0), ENOENT, Told::Any),
        (Step::Active(0), ENOENT, Told::Any),
        (Step::Init(0, MUTEX), 0, Told::Any),
        (Step::Active(0), 0, Told::Any),
    ],
];
