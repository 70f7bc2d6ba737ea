//! A service of one actor before it is opened.
ghost use Rattle.std.specs.Prelude.{◌≡◌, ◌≤◌, IfOk, replicate};
ghost use Rattle.co_service.specs.Booted.{AreBooted};
ghost use Rattle.co_service.specs.Fresh.{AreNamed};
ghost use Rattle.co_desk.specs.Params.{no_spec};
ghost use Rattle.co_single.specs.Rest.{IsEndingRoom};

use co_object::{LockUse, Spec};
use co_sbt::{NoMemory, Room, Seq};
use co_service::{Fresh, Passes, Service};
use std::alloc::Global;
use std::marker::Model;

/// A service of version 1 with one CPU of 256 buckets and no client, which is not open yet, and its one actor's passes.
///
/// Contracts see its name and how many callouts it has.
#[derive(Drop)]
pub struct SingleFresh {
    pub(crate) fresh: Fresh,
    pub(crate) passes: Passes,
    /// What the end needs.
    pub(crate) ending: Room<Passes>,
}

impl Model for SingleFresh {
    ghost use Rattle.std.specs.Prelude.{length};
    ghost use Rattle.co_single.specs.Rest.{IsEndingRoom, IsSingleFresh, SingleFreshView};

    ghost Value = { SingleFreshView };

    ghost view = { λ s. record { name = s.fresh.name; callouts = length s.fresh.params.specs } };

    ghost invariant = { λ s. IsSingleFresh s.fresh s.passes × IsEndingRoom s.ending };
}

/// What is fixed of `callouts` callouts: none has a lock, and none is direct. `NoMemory` where there is no room for
/// them.
fn plain_specs(alloc: Global, callouts: u32) -> Result<Seq<Spec>, NoMemory>
    ensures { IfOk result (λ specs. specs ≡ replicate callouts no_spec) }
{
    let mut specs = Seq::new(alloc);
    for _ in 0..callouts {
        specs.push(Spec {
            lock: LockUse::Free,
            returns_unlocked: false,
            direct: false,
        })?;
    }
    Ok(specs)
}

/// A service with these callouts, and each actor's passes of it.
fn plain_service(alloc: Global, callouts: u32) -> Result<(Fresh, Seq<Passes>), NoMemory>
    requires some { 1 ≤ callouts }
    requires limit { callouts ≤ 1024 }
    ensures params { IfOk result (λ made. made.0.params ≡ record { version = 1; clients = 0; cpus = 1; buckets = 256; specs = replicate callouts no_spec }) }
    ensures passes { IfOk result (λ made. AreBooted made.0.name made.0.params made.1) }
    ensures named { IfOk result (λ made. AreNamed made.0.name made.0.params) }
{
    let specs = plain_specs(alloc, callouts)?;
    Service::boot(alloc, 1, 1, 256, 0, specs.as_slice())
}

/// Room for the one actor's passes.
fn ending_room(alloc: Global) -> Result<Room<Passes>, NoMemory>
    ensures { IfOk result IsEndingRoom }
{
    let mut room = Room::from_seq(Seq::new(alloc));
    room.reserve(1)?;
    Ok(room)
}

impl SingleFresh {
    /// A service with 1 to 1024 callouts. It and its opening take all memory that the service ever takes.
    pub fn boot(alloc: Global, callouts: u32) -> Result<SingleFresh, NoMemory>
        requires some { 1 ≤ callouts }
        requires limit { callouts ≤ 1024 }
        ensures { IfOk result (λ fresh. fresh.callouts ≡ callouts) }
    {
        let ending = ending_room(alloc)?;
        let (fresh, passes) = plain_service(alloc, callouts)?;
        let Some(passes) = passes.into_vec().pop() else {
            unreachable!()
        };
        Ok(SingleFresh {
            fresh,
            passes,
            ending,
        })
    }
}
