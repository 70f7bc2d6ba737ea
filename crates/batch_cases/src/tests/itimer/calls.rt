//! Worked calls of interval timers.
ghost use Rattle.std.specs.Prelude.{◌≡◌};

use crate::tests::halves;
use co_itimer::{Itimers, ItimersFresh, Itimerval};
use co_sbt::Sbt;
use co_service::Name;
use std::alloc::Global;
use std::marker::Brand;
use std::process::Abort;
use std::sync::Wait;

/// What a process's timer has to come, in halves of a second.
fn timer(value: i32, interval: i32) -> Itimerval {
    Itimerval {
        value: halves(value),
        interval: halves(interval),
    }
}

/// A timer that has nothing to come.
fn unset() -> Itimerval {
    Itimerval {
        value: Sbt::zero(),
        interval: Sbt::zero(),
    }
}

/// A timer with an interval of 2 seconds, and a tick that is late: each answer is as it should be.
fn follows<N: Name, R: Abort + Wait>(rt: &R, alloc: Global, fresh: ItimersFresh) -> bool
    requires name { fresh.name ≡ N.name }
    requires one { fresh.processes ≡ 1 }
{
    let mut timers = Itimers::<N>::open(alloc, fresh).expect(rt, "no memory");
    let mut right = timers.set(rt, 0, timer(2, 4)) == unset();
    right &= timers.tick(rt, halves(1)) == 0;
    right &= timers.get(0) == timer(1, 4);
    right &= timers.tick(rt, halves(12)) == 1;
    right &= timers.get(0) == timer(2, 4);
    right &= timers.alarm(0);
    right &= !timers.alarm(0);
    let off = Itimerval {
        value: Sbt::zero(),
        interval: halves(10),
    };
    right &= timers.set(rt, 0, off) == timer(2, 4);
    right &= timers.get(0) == unset();
    right &= timers.work() == 4;
    drop(timers.close(rt));
    right
}

#[test]
fn a_timer_follows_its_interval(rt: HostRuntime) {
    let fresh = Itimers::boot(rt.alloc(), 1).expect(&rt, "no memory");
    assert!(rt; follows::<Brand, _>(&rt, rt.alloc(), fresh));
}
