//! A service of two clients, two CPUs and three callouts: one without a lock, one with a mutex, and a direct one.
ghost use Rattle.std.specs.Prelude.{◌≡◌};
ghost use Rattle.service_cases.specs.Timers.{scene, scene_locks};

use co_lock::LockKind;
use co_object::{LockUse, Spec};
use co_sbt::Sbt;
use co_service::Name;
use co_timers::{Posts, Refused, Reset, Timers, TimersFresh};
use std::alloc::Global;
use std::process::Abort;

/// The service before it is opened. There is memory for it.
pub(super) fn boot<R: Abort>(rt: &R, alloc: Global) -> TimersFresh
    ensures scene { result.params ≡ scene }
    ensures locks { result.locks ≡ scene_locks }
{
    let free = Spec {
        lock: LockUse::Free,
        returns_unlocked: false,
        direct: false,
    };
    let locked = Spec {
        lock: LockUse::Mtx(0),
        returns_unlocked: false,
        direct: false,
    };
    let direct = Spec {
        lock: LockUse::Free,
        returns_unlocked: false,
        direct: true,
    };
    TimersFresh::boot(alloc, 2, 2, 16, &[free, locked, direct], &[LockKind::Mtx]).expect(
        rt,
        "no memory",
    )
}

/// The open service, and its posts. There is memory for them.
pub(super) fn open<N: Name, R: Abort>(
    rt: &R,
    alloc: Global,
    fresh: TimersFresh,
) -> (Timers<N>, Posts<N>)
    requires { fresh.name ≡ N.name }
    ensures timers { result.0.params ≡ fresh.params }
    ensures posts { result.1.params ≡ fresh.params }
{
    Timers::<N>::open(alloc, fresh).expect(rt, "no memory")
}

/// The time of so many seconds.
pub(super) fn seconds(count: i32) -> Sbt {
    Sbt::from_ticks(count, 1)
}

/// A callout is armed that was not.
pub(super) const ARMED: Result<Reset, Refused> = Ok(Reset::Armed { replaced: false });
