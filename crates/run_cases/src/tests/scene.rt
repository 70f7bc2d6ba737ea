//! A service of two clients, three CPUs and two callouts without locks, on which clients call through ports.
ghost use Rattle.std.specs.Prelude.{◌≡◌};
ghost use Rattle.co_service.specs.Booted.{AreBooted};
ghost use Rattle.co_desk.specs.Views.{AreOf};
ghost use Rattle.run_cases.specs.Scenes.{two_clients};

use co_object::{LockUse, Spec};
use co_sbt::Seq;
use co_service::{Fresh, Name, Passes, Service};
use std::alloc::Global;
use std::process::Abort;

/// Two callouts without locks.
pub(super) const SPECS: [Spec; 2] = [FREE, FREE];

/// A callout without a lock.
pub(super) const FREE: Spec = Spec {
    lock: LockUse::Free,
    returns_unlocked: false,
    direct: false,
};

/// The service before its locks.
pub(super) fn boot(rt: &impl Abort, alloc: Global) -> (Fresh, Seq<Passes>)
    ensures scene { result.0.params ≡ two_clients }
    ensures passes { AreBooted result.0.name result.0.params result.1 }
{
    let made = Fresh::boot(alloc, 1, 3, 16, 2, &SPECS).expect(rt, "no memory");
    made
}

/// The passes of both clients.
pub(super) fn leave_clients<N: Name>(service: &Service<N>, passes: Seq<Passes>) -> (Passes, Passes)
    requires scene { service.now ≡ two_clients }
    requires passes { AreBooted N.name service.now passes }
    ensures one { AreOf N.name service.now result.0 }
    ensures other { AreOf N.name service.now result.1 }
{
    let mut all = passes.into_vec();
    // The CPUs'.
    drop(service.leave(&mut all, 4));
    drop(service.leave(&mut all, 3));
    drop(service.leave(&mut all, 2));
    let other = service.leave(&mut all, 1);
    let one = service.leave(&mut all, 0);
    drop(all);
    (one, other)
}
