//! Worked calls.
ghost use Rattle.std.specs.Prelude.{◌≡◌};

use super::halves;
use co_service::Name;
use co_single::{Fired, Single, SingleFresh};
use std::alloc::Global;
use std::marker::Brand;
use std::process::Abort;
use std::sync::Wait;

/// What the first two fires after a scan answered, and how many had come due.
type Story = (u32, Option<Fired>, Option<Fired>);

/// Two callouts are armed, the second for an earlier time, which alone comes due; the first is disarmed.
fn play<N: Name, R: Abort + Wait>(rt: &R, alloc: Global, fresh: SingleFresh) -> Story
    requires name { fresh.name ≡ N.name }
    requires two { fresh.callouts ≡ 2 }
{
    let mut single = Single::<N>::open(alloc, fresh).expect(rt, "no memory");
    single.arm(rt, 0, 0, halves(3), 7);
    single.arm(rt, 1, 1, halves(1), 8);
    let count = single.scan(rt, 2, halves(2));
    let first = single.fire(rt, 3);
    let second = single.fire(rt, 4);
    single.disarm(rt, 5, 0);
    drop(single.close(rt));
    (count, first, second)
}

#[test]
fn fires_what_is_due(rt: HostRuntime) {
    let fresh = SingleFresh::boot(rt.alloc(), 2).expect(&rt, "no memory");
    let story = play::<Brand, _>(&rt, rt.alloc(), fresh);
    assert!(rt; story == (1, Some(Fired { i: 1, arg: 8 }), None));
}
