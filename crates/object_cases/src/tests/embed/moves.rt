//! Callouts that leave one wheel for another.

use super::replies::{BLANK, SECOND, Told};
use super::tested::{
    EEXIST, EINVAL, ENOENT, HOME, MPSAFE, MUTEX, NEVER, NOTHING, Row, Step, wheel_of,
};
use co_embed::{CalloutParcel, CalloutReply, When};
use std::alloc::Global;
use std::process::Abort;

/// Callout 0 without a lock on its way to CPU 1, with its first arming, for a second.
const UNDER_WAY: CalloutParcel = CalloutParcel {
    due: SECOND,
    prec: 0,
    func: 70,
    arg: 8,
    made: 1,
    id: 0,
    cpu: 1,
    lock_kind: 0,
    lock: 0,
    returns_unlocked: 0,
    direct: 0,
    active: 1,
    known: 1,
};

const PRECISE: When = When {
    due: SECOND,
    prec: 5,
    cpu: 1,
};

const LEAVES_AT_ONCE: CalloutReply = CalloutReply {
    answer: 1,
    cpu: 1,
    leaves: 1,
    ..BLANK
};

const PRECISE_UNDER_WAY: CalloutParcel = CalloutParcel {
    prec: 5,
    lock_kind: 1,
    lock: 9,
    ..UNDER_WAY
};

const IN_TWO_SECONDS: When = When {
    due: 2 * SECOND,
    prec: 0,
    cpu: 1,
};

/// Arming 1 is to be at CPU 1, and stands in no queue.
const WAITS: CalloutReply = CalloutReply {
    answer: 1,
    n: 1,
    cpu: 1,
    ..BLANK
};

const LEAVES_AT_THE_END: CalloutReply = CalloutReply {
    answer: 15,
    n: 1,
    at: 2 * SECOND,
    cpu: 1,
    leaves: 1,
    ..BLANK
};

const SECOND_UNDER_WAY: CalloutParcel = CalloutParcel {
    due: 2 * SECOND,
    arg: 9,
    made: 2,
    ..UNDER_WAY
};

/// Of a wheel at CPU 0.
pub(crate) const LEAVING: &[&[Row]] = &[
    // At rest it leaves at once, with all that it has.
    &[
        (Step::Init(0, MUTEX), 0, Told::Any),
        (
            Step::ResetTo(0, PRECISE, 70, 8),
            0,
            Told::Is(LEAVES_AT_ONCE),
        ),
        (Step::HasParcel(PRECISE_UNDER_WAY), 1, Told::Any),
        (Step::Pending(0), ENOENT, Told::Any),
        (Step::Earliest, NEVER, Told::Any),
        (Step::Advance(SECOND), 0, Told::Any),
    ],
    // In service it leaves at the end.
    &[
        (Step::Init(0, MPSAFE), 0, Told::Any),
        (Step::Reset(0, SECOND, 8), 0, Told::Any),
        (Step::Advance(SECOND), 1, Told::Any),
        (Step::Next, 0, Told::Any),
        (Step::ResetTo(0, IN_TWO_SECONDS, 70, 9), 0, Told::Is(WAITS)),
        (Step::HasParcel(NOTHING), 1, Told::Any),
        (Step::Pending(0), 1, Told::Any),
        (Step::End, 0, Told::Is(LEAVES_AT_THE_END)),
        (Step::HasParcel(SECOND_UNDER_WAY), 1, Told::Any),
        (Step::Pending(0), ENOENT, Told::Any),
    ],
    // A stop takes the move away too: nothing was in the queue.
    &[
        (Step::Init(0, MPSAFE), 0, Told::Any),
        (Step::Reset(0, SECOND, 8), 0, Told::Any),
        (Step::Advance(SECOND), 1, Told::Any),
        (Step::Next, 0, Told::Any),
        (Step::ResetTo(0, IN_TWO_SECONDS, 70, 9), 0, Told::Any),
        (Step::Stop(0), 0, Told::Stopped(0, 0)),
        (Step::End, 0, Told::Ended(0, 0)),
        (Step::HasParcel(NOTHING), 1, Told::Any),
        (Step::Pending(0), 0, Told::Any),
    ],
];

const AT_HOME: When = When {
    due: 2 * SECOND,
    prec: 0,
    cpu: HOME,
};

const STAYS: CalloutReply = CalloutReply {
    answer: 1,
    n: 1,
    at: 2 * SECOND,
    cpu: 1,
    ..BLANK
};

const FOR_ANOTHER_CPU: CalloutParcel = CalloutParcel {
    cpu: 0,
    ..UNDER_WAY
};

const NO_CALLOUT: CalloutParcel = CalloutParcel { id: 4, ..UNDER_WAY };

const OF_THE_OTHER_LANE: CalloutParcel = CalloutParcel { id: 3, ..UNDER_WAY };

const DIRECT: CalloutParcel = CalloutParcel {
    direct: 1,
    ..UNDER_WAY
};

const NO_KIND: CalloutParcel = CalloutParcel {
    lock_kind: 4,
    ..UNDER_WAY
};

const NEVER_MADE: CalloutParcel = CalloutParcel {
    made: 0,
    ..UNDER_WAY
};

const NO_TIME: CalloutParcel = CalloutParcel {
    due: 0xffff_ffff_ffff_ffff,
    ..UNDER_WAY
};

const NO_PRECISION: CalloutParcel = CalloutParcel {
    prec: 0xffff_ffff_ffff_ffff,
    ..UNDER_WAY
};

/// Of a wheel at CPU 1.
pub(crate) const LANDING: &[&[Row]] = &[
    // It lands, fires with its function, and goes on where it is: its own CPU is that of its last arming.
    &[
        (Step::Cpu, 1, Told::Any),
        (Step::Land(UNDER_WAY), 4_294_967_296, Told::Any),
        (Step::Pending(0), 1, Told::Any),
        (Step::Active(0), 1, Told::Any),
        (Step::Advance(SECOND), 1, Told::Any),
        (Step::Next, 0, Told::Go(0, 8, SECOND)),
        (Step::ResetTo(0, AT_HOME, 70, 9), 0, Told::Is(STAYS)),
        (Step::End, 0, Told::Any),
    ],
    // It lands once, and where it comes late it stands at the last advance's time.
    &[
        (Step::Advance(5 * SECOND), 0, Told::Any),
        (Step::Land(UNDER_WAY), 21_474_836_480, Told::Any),
        (Step::Land(UNDER_WAY), EEXIST, Told::Any),
        (Step::Advance(5 * SECOND), 1, Told::Any),
    ],
    // What is for another CPU, has an id that is none here or of the other lane, or is no parcel at all.
    &[
        (Step::Land(FOR_ANOTHER_CPU), EINVAL, Told::Any),
        (Step::Land(NO_CALLOUT), EINVAL, Told::Any),
        (Step::Land(OF_THE_OTHER_LANE), EINVAL, Told::Any),
        (Step::Land(DIRECT), EINVAL, Told::Any),
        (Step::Land(NO_KIND), EINVAL, Told::Any),
        (Step::Land(NEVER_MADE), EINVAL, Told::Any),
        (Step::Land(NO_TIME), EINVAL, Told::Any),
        (Step::Land(NO_PRECISION), EINVAL, Told::Any),
        (Step::Pending(0), ENOENT, Told::Any),
        (Step::Earliest, NEVER, Told::Any),
    ],
];

const IN_A_SECOND: When = When {
    due: SECOND,
    prec: 0,
    cpu: 1,
};

/// The id is free again at the wheel that it left.
static LEAVES: [Row; 3] = [
    (Step::Init(0, MUTEX), 0, Told::Any),
    (Step::ResetTo(0, IN_A_SECOND, 70, 8), 0, Told::Any),
    (Step::Init(0, MPSAFE), 0, Told::Any),
];

static ARRIVED: [Row; 4] = [
    (Step::Init(0, MPSAFE), EEXIST, Told::Any),
    (Step::Advance(SECOND), 1, Told::Any),
    (Step::Next, 0, Told::Hold(SECOND)),
    (Step::Begin, 0, Told::GoOn(8)),
];

/// What one wheel gives another takes. The first wrong rows of the one and the other, and where it landed.
fn from_wheel_to_wheel(rt: &impl Abort, alloc: Global) -> [Option<usize>; 3] {
    let mut from = wheel_of(rt, alloc, 0);
    let mut to = wheel_of(rt, alloc, 1);
    let left = from.first_wrong(&LEAVES);
    let landed = to.first_wrong(&[(Step::Land(from.parcel), 4_294_967_296, Told::Any)]);
    let arrived = to.first_wrong(&ARRIVED);
    drop(from);
    drop(to);
    [left, landed, arrived]
}

#[test]
fn goes_from_wheel_to_wheel(rt: HostRuntime) {
    assert!(rt; from_wheel_to_wheel(&rt, rt.alloc()) == [None; 3]);
}
