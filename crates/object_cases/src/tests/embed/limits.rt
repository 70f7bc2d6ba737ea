//! How large a wheel may be.

use super::replies::{BLANK, SECOND, Told};
use super::tested::{EINVAL, HERE, HOME, MPSAFE, Row, Step, TestedWheel};
use co_embed::{CalloutReply, Embed};
use std::alloc::Global;

/// CPU, buckets, callouts and direct ones of wheels that there are not.
static NONE: [(u32, u32, u32, u32); 8] = [
    (0, 16, 0, 0),
    (0, 16, 1_048_577, 0),
    (0, 8, 4, 0),
    (0, 24, 4, 0),
    (0, 131_072, 4, 0),
    (0, 16, 4, 5),
    (HERE, 16, 4, 0),
    (HOME, 16, 4, 0),
];

/// 0 where there is a wheel of these sizes, or why not.
fn made(alloc: Global, sizes: (u32, u32, u32, u32)) -> i64 {
    let (cpu, buckets, callouts, direct) = sizes;
    match Embed::new(alloc, cpu, buckets, callouts, direct).err() {
        Some(refusal) => i64::from(refusal.errno()),
        None => 0,
    }
}

#[test]
fn sizes(rt: HostRuntime) {
    for sizes in &NONE {
        assert!(rt; made(rt.alloc(), *sizes) == EINVAL);
    }
    // The least wheel.
    assert!(rt; made(rt.alloc(), (HERE - 1, 16, 1, 1)) == 0);
}

const CALLS_LAST: CalloutReply = CalloutReply {
    answer: 12,
    func: 70,
    arg: 8,
    at: SECOND,
    id: 1_048_575,
    ..BLANK
};

/// The last callout of the largest wheel fires.
static LAST: [Row; 6] = [
    (Step::Init(1_048_576, MPSAFE), EINVAL, Told::Any),
    (Step::Init(1_048_575, MPSAFE), 0, Told::Any),
    (Step::Reset(1_048_575, SECOND, 8), 0, Told::Any),
    (Step::Advance(SECOND), 1, Told::Any),
    (Step::Next, 0, Told::Is(CALLS_LAST)),
    (Step::End, 0, Told::Any),
];

#[test]
fn the_largest(rt: HostRuntime) {
    let wheel = Embed::new(rt.alloc(), 0, 65536, 1_048_576, 0).expect(&rt, "no memory");
    let mut tested = TestedWheel::new(wheel);
    let wrong = tested.first_wrong(&LAST);
    drop(tested);
    assert!(rt; wrong.is_none());
}
