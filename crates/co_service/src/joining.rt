//! Each actor's passes of all places of a service.
ghost use Rattle.std.specs.Prelude.{◌≡◌, ◌<◌, IfOk};
ghost use Rattle.co_service.specs.Booted.{AreBooted, AreLeft, AreSeatedAt, booted};
ghost use Rattle.co_desk.specs.Params.{actor_count};
ghost use Rattle.co_service.specs.Fresh.{AreNamed};

use co_desk::{CpuStory, Params, Passes, Places, Seats, TimerStory};
use co_sbt::{NoMemory, Seq};
use std::alloc::Global;
use std::mem;

/// One actor's passes, of its seats at the callouts and at the CPUs.
fn join(
    actor: u32,
    actors: u32,
    params: &Params,
    timers: Seats<TimerStory>,
    cpus: Seats<CpuStory>,
) -> Passes
    requires count { actors ≡ actor_count params.now }
    requires timers { AreSeatedAt params.now timers.name actor timers }
    requires cpus { AreSeatedAt params.now cpus.name actor cpus }
    requires named { AreNamed (record { timers = timers.name; cpus = cpus.name }) params.now }
    ensures { result ≡ booted (record { timers = timers.name; cpus = cpus.name }) params.now actor }
{
    Passes::new(actor, actors, params, timers, cpus)
}

/// Each actor's passes, in the order of their numbers. They have seen nothing.
pub(crate) fn join_all(
    alloc: Global,
    params: &Params,
    places: &Places,
    actors: u32,
    timers: Vec<Seats<TimerStory>>,
    cpus: Vec<Seats<CpuStory>>,
) -> Result<Seq<Passes>, NoMemory>
    requires count { actors ≡ actor_count params.now }
    requires timers { AreLeft params.now places.now.timers actors 0 timers.items }
    requires cpus { AreLeft params.now places.now.cpus actors 0 cpus.items }
    requires named { AreNamed places.now params.now }
    ensures { IfOk result (λ all. AreBooted places.now params.now all) }
{
    let mut timers = timers;
    let mut cpus = cpus;
    let mut all = Seq::new(alloc);
    for actor in 0..actors {
        let callouts = mem::replace(&mut timers[actor as usize], Seats::new(alloc, 0));
        let wheels = mem::replace(&mut cpus[actor as usize], Seats::new(alloc, 0));
        all.push(join(actor, actors, params, callouts, wheels))?;
    }
    Ok(all)
}
