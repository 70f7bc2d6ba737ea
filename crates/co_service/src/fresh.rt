//! A service before its locks.
ghost use Rattle.std.specs.Prelude.{◌≡◌, ◌≤◌, IfOk, length};
ghost use Rattle.co_service.specs.Booted.{AreBooted, AreSetUp};
ghost use Rattle.co_service.specs.Fresh.{AreNamed, IsFreshlyMade};
ghost use Rattle.co_desk.specs.Params.{AreParams, actor_count};
ghost use Rattle.co_desk.specs.Stories.{IsHistory, IsJournal};

use crate::boot::{SetUp, make_places};
use crate::desk_parts::{DeskParts, make_all_parts};
use crate::joining::join_all;
use co_desk::{CpuStory, Params, Passes, Places, TimerStory};
use co_object::Spec;
use co_sbt::{NoMemory, Seq};
use std::alloc::Global;
use std::marker::Model;

/// A service before its locks. [`Service::open`](crate::Service::open) makes the running service of it.
///
/// Contracts see its name, which no other service has, and its parameters.
#[derive(Drop)]
pub struct Fresh {
    pub(crate) places: Places,
    pub(crate) params: Params,
    /// By CPU.
    pub(crate) all_parts: Vec<DeskParts>,
}

impl Model for Fresh {
    ghost use Rattle.co_service.specs.Fresh.{FreshView, IsFresh};

    ghost Value = { FreshView };

    ghost view = { λ f. record { name = f.places; params = f.params } };

    ghost invariant = { λ f. IsFresh f.places f.params f.all_parts.items };
}

/// How many actors there are: the clients, the CPUs, and from version 2 on the CPUs' interrupts.
fn count_actors(params: &Params) -> u32
    requires { AreParams params.now }
    ensures count { result ≡ actor_count params.now }
    ensures some { 1 ≤ result }
{
    if params.version == 1 {
        return params.clients + params.cpus;
    }
    params.clients + (params.cpus + params.cpus)
}

/// The callouts of a service, in whose histories no call has made an entry.
fn make_callouts(alloc: Global, params: &Params, actors: u32) -> Result<SetUp<TimerStory>, NoMemory>
    requires params { AreParams params.now }
    requires actors { (actors ≡ actor_count params.now) × (1 ≤ actors) }
    ensures { IfOk result (λ made. AreSetUp IsHistory params.now (length params.now.specs) made.lives made.keepers.items made.seats.items) }
{
    let count = params.specs.as_slice().len() as u32;
    make_places(alloc, params, count, actors)
}

/// The CPUs of a service, in whose journals no call has made an entry.
fn make_cpus(alloc: Global, params: &Params, actors: u32) -> Result<SetUp<CpuStory>, NoMemory>
    requires actors { (actors ≡ actor_count params.now) × (1 ≤ actors) }
    ensures { IfOk result (λ made. AreSetUp IsJournal params.now params.now.cpus made.lives made.keepers.items made.seats.items) }
{
    make_places(alloc, params, params.cpus, actors)
}

/// A service before its locks, of these callouts and CPUs, and each actor's passes of it.
fn join_fresh(
    alloc: Global,
    params: Params,
    actors: u32,
    callouts: SetUp<TimerStory>,
    cpus: SetUp<CpuStory>,
) -> Result<(Fresh, Seq<Passes>), NoMemory>
    requires params { AreParams params }
    requires actors { actors ≡ actor_count params }
    requires callouts { AreSetUp IsHistory params (length params.specs) callouts.lives callouts.keepers.items callouts.seats.items }
    requires cpus { AreSetUp IsJournal params params.cpus cpus.lives cpus.keepers.items cpus.seats.items }
    ensures { IfOk result (λ made. IsFreshlyMade params made.0 made.1) }
{
    let places = Places::new(callouts.lives, cpus.lives);
    let passes = join_all(alloc, &params, &places, actors, callouts.seats, cpus.seats)?;
    let all_parts = make_all_parts(alloc, &params, &places, callouts.keepers, cpus.keepers)?;
    let fresh = Fresh {
        places,
        params,
        all_parts,
    };
    Ok((fresh, passes))
}

/// A service of these parameters before its locks, and each actor's passes of it.
fn make_fresh(alloc: Global, params: Params) -> Result<(Fresh, Seq<Passes>), NoMemory>
    requires { AreParams params }
    ensures { IfOk result (λ made. IsFreshlyMade params made.0 made.1) }
{
    let actors = count_actors(&params);
    let callouts = make_callouts(alloc, &params, actors)?;
    let cpus = make_cpus(alloc, &params, actors)?;
    join_fresh(alloc, params, actors, callouts, cpus)
}

impl Fresh {
    /// A service before its locks, and each actor's passes of it, in the order of the actors' numbers: the clients, the
    /// CPUs, and from version 2 on the CPUs' interrupts. The passes have seen nothing.
    ///
    /// The version is 1 or 2. There are 1 to 16 CPUs, 0 to 16 clients and 1 to 1024 callouts, and each CPU's wheel has
    /// a power of two of buckets, from 16 to 65536. A callout that has no lock doesn't release it, a direct one has
    /// none, and version 1 has no direct one. All callouts begin at CPU 0. Our own decisions. `NoMemory` where there
    /// is no room for the histories, the passes or the wheels.
    pub fn boot(
        alloc: Global,
        version: u32,
        cpus: u32,
        buckets: u32,
        clients: u32,
        specs: &[Spec],
    ) -> Result<(Fresh, Seq<Passes>), NoMemory>
        requires { AreParams (record { version = version; clients = clients; cpus = cpus; buckets = buckets; specs = specs.now }) }
        ensures params { IfOk result (λ made. made.0.params ≡ record { version = version; clients = clients; cpus = cpus; buckets = buckets; specs = specs.now }) }
        ensures passes { IfOk result (λ made. AreBooted made.0.name made.0.params made.1) }
        ensures named { IfOk result (λ made. AreNamed made.0.name made.0.params) }
    {
        let params = Params {
            version,
            clients,
            cpus,
            buckets,
            specs: Seq::copy_of(alloc, specs)?,
        };
        make_fresh(alloc, params)
    }
}
