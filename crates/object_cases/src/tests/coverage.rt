//! Which calls a hold covers, and under which hold a service begins.

use co_lock::{Held, covers, hold_of};
use co_object::{CallOp, LockUse, PlainOp, Spec};
use co_sbt::Sbt;

/// What is called.
#[derive(Clone, Copy)]
enum Called {
    Drain,
    Stop,
    Pending,
    Schedule,
}

const READING: Held = Held {
    id: 3,
    exclusive: false,
};

const WRITING: Held = Held {
    id: 3,
    exclusive: true,
};

/// A lock that has nothing to do with the callout.
const OTHER: Held = Held {
    id: 4,
    exclusive: false,
};

/// What is held, the callout's lock, the call, and whether the hold covers it: a drain without a hold alone, and a stop by an
/// exclusive hold alone, where the callout shares its lock. There a schedule needs a hold, and a look does not.
static COVERED: [(Option<Held>, LockUse, Called, bool); 8] = [
    (None, LockUse::Free, Called::Drain, true),
    (Some(OTHER), LockUse::Free, Called::Drain, false),
    (Some(OTHER), LockUse::Free, Called::Stop, true),
    (Some(READING), LockUse::RwShared(3), Called::Stop, false),
    (Some(WRITING), LockUse::RwShared(3), Called::Stop, true),
    (None, LockUse::RwShared(3), Called::Pending, true),
    (Some(READING), LockUse::RwShared(3), Called::Schedule, true),
    (None, LockUse::RwShared(3), Called::Schedule, false),
];

/// The call of that name.
fn call_of(called: Called) -> CallOp {
    let op = match called {
        Called::Drain => return CallOp::DrainTry { took: false },
        Called::Stop => PlainOp::Stop,
        Called::Pending => PlainOp::Pending,
        Called::Schedule => PlainOp::Schedule {
            due: Sbt::zero(),
            prec: Sbt::zero(),
            cpu: None,
        },
    };
    CallOp::Plain(op)
}

/// Whether the hold covers the call on a callout with this lock.
fn is_covered(held: Option<Held>, lock: LockUse, called: Called) -> bool {
    let spec = Spec {
        lock,
        returns_unlocked: false,
        direct: false,
    };
    covers(held, &spec, &call_of(called))
}

#[test]
fn covers_calls(rt: HostRuntime) {
    for (held, lock, called, covered) in &COVERED {
        assert!(rt; is_covered(*held, *lock, *called) == *covered);
    }
}

/// The hold under which the service of a callout with this lock begins.
const HOLDS: &[(LockUse, Option<Held>)] = &[
    (LockUse::Free, None),
    (LockUse::Rw(3), Some(WRITING)),
    (LockUse::RwShared(3), Some(READING)),
];

#[test]
fn shares_a_lock_that_the_callout_shares(rt: HostRuntime) {
    for (lock, held) in HOLDS {
        assert!(rt; hold_of(*lock) == *held);
    }
}
