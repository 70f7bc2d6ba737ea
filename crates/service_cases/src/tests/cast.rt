//! Who leaves a service that is played, and its end.
ghost use Rattle.std.specs.Prelude.{◌≡◌, false};
ghost use Rattle.co_object.specs.Actors.{cpu_actor};
ghost use Rattle.co_object.specs.Journal.{scanner};
ghost use Rattle.co_service.specs.Booted.{AreBooted};
ghost use Rattle.co_service.specs.Kept.{KeepsFree};
ghost use Rattle.co_desk.specs.Params.{actor_count, actors_of};
ghost use Rattle.co_desk.specs.Views.{AreOf};

use co_sbt::Seq;
use co_service::{Crew, Name, Passes, Service};
use std::alloc::Global;
use std::process::Abort;
use std::sync::Wait;

/// The passes of the one client and of the one CPU.
pub(super) fn leave_two<N: Name>(service: &Service<N>, passes: Seq<Passes>) -> (Passes, Passes)
    requires version { service.now.version ≡ 1 }
    requires clients { service.now.clients ≡ 1 }
    requires cpus { service.now.cpus ≡ 1 }
    requires passes { AreBooted N.name service.now passes }
    ensures client { AreOf N.name service.now result.0 }
    ensures cpu { KeepsFree N.name service.now (cpu_actor (actors_of service.now) 0) false 0 result.1 }
    ensures scans { result.1.actor ≡ scanner (actors_of service.now) 0 }
{
    let mut all = passes.into_vec();
    let cpu = service.leave_cpu(&mut all, 0);
    let client = service.leave(&mut all, 0);
    drop(all);
    (client, cpu)
}

/// The passes of the one client, and of the first and the second of two CPUs.
pub(super) fn leave_three<N: Name>(
    service: &Service<N>,
    passes: Seq<Passes>,
) -> (Passes, Passes, Passes)
    requires version { service.now.version ≡ 1 }
    requires clients { service.now.clients ≡ 1 }
    requires cpus { service.now.cpus ≡ 2 }
    requires passes { AreBooted N.name service.now passes }
    ensures client { AreOf N.name service.now result.0 }
    ensures first { KeepsFree N.name service.now (cpu_actor (actors_of service.now) 0) false 0 result.1 }
    ensures first_scans { result.1.actor ≡ scanner (actors_of service.now) 0 }
    ensures second { KeepsFree N.name service.now (cpu_actor (actors_of service.now) 1) false 1 result.2 }
    ensures second_scans { result.2.actor ≡ scanner (actors_of service.now) 1 }
{
    let mut all = passes.into_vec();
    let second = service.leave_cpu(&mut all, 1);
    let first = service.leave_cpu(&mut all, 0);
    let client = service.leave(&mut all, 0);
    drop(all);
    (client, first, second)
}

/// The end of a service of two actors.
pub(super) fn close_two<N: Name, R: Wait + Abort>(
    rt: &R,
    alloc: Global,
    service: Service<N>,
    first: Passes,
    second: Passes,
)
    requires count { actor_count service ≡ 2 }
    requires first { AreOf N.name service first }
    requires second { AreOf N.name service second }
{
    let mut crew = Crew::new(alloc, &service).expect(rt, "no memory");
    crew.back(first);
    crew.back(second);
    drop(service.close(rt, crew.into_all()));
}
