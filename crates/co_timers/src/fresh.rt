//! The service before it is opened.
ghost use Rattle.std.specs.Prelude.{◌≡◌, IfOk};
ghost use Rattle.co_desk.specs.Params.{AreParams};
ghost use Rattle.co_timers.specs.Timers.{HaveLocks};

use co_lock::{ClientLocks, LockKind};
use co_object::Spec;
use co_sbt::{NoMemory, Seq};
use co_service::{Fresh, Params, Passes, Service};
use std::alloc::Global;
use std::marker::Model;

/// A service with its client locks, which is not open yet, and each actor's passes.
///
/// Contracts see its name, its parameters and the kinds of its locks.
#[derive(Drop)]
pub struct TimersFresh {
    pub(crate) fresh: Fresh,
    pub(crate) passes: Seq<Passes>,
    pub(crate) params: Params,
    pub(crate) locks: ClientLocks,
    pub(crate) kinds: Seq<LockKind>,
}

impl Model for TimersFresh {
    ghost use Rattle.co_timers.specs.Posts.{FreshTimers, AreFreshTimers};

    ghost Value = { FreshTimers };

    ghost view = { λ f. record { name = f.fresh.name; params = f.params; locks = f.locks } };

    ghost invariant = { λ f. AreFreshTimers f.fresh f.passes f.params f.locks f.kinds };
}

/// The parameters of a service of version 2 with these callouts. `NoMemory` where there is no room for them.
fn params_of(
    alloc: Global,
    cpus: u32,
    clients: u32,
    buckets: u32,
    specs: &[Spec],
) -> Result<Params, NoMemory>
    ensures { IfOk result (λ params. params ≡ record { version = 2; clients = clients; cpus = cpus; buckets = buckets; specs = specs.now }) }
{
    Ok(Params {
        version: 2,
        clients,
        cpus,
        buckets,
        specs: Seq::copy_of(alloc, specs)?,
    })
}

/// Client locks of these kinds, and the kinds. `NoMemory` where there is no room for them.
fn locks_of(alloc: Global, kinds: &[LockKind]) -> Result<(ClientLocks, Seq<LockKind>), NoMemory>
    ensures locks { IfOk result (λ made. made.0 ≡ kinds.now) }
    ensures kinds { IfOk result (λ made. made.1 ≡ kinds.now) }
{
    let locks = ClientLocks::new(alloc, kinds)?;
    Ok((locks, Seq::copy_of(alloc, kinds)?))
}

impl TimersFresh {
    /// A service of 1 to 16 CPUs with `buckets` buckets each, up to 16 clients, these callouts and these client locks.
    /// It and the opening take all memory that the service and its handles ever take.
    ///
    /// Each CPU has an interrupt, which scans and serves the direct callouts. Buckets are a power of two from 16 to
    /// 65536; there are 1 to 1024 callouts, and the lock that one names exists. `NoMemory` where there is no room for
    /// the service or the locks.
    pub fn boot(
        alloc: Global,
        cpus: u32,
        clients: u32,
        buckets: u32,
        specs: &[Spec],
        locks: &[LockKind],
    ) -> Result<TimersFresh, NoMemory>
        requires params { AreParams (record { version = 2; clients = clients; cpus = cpus; buckets = buckets; specs = specs.now }) }
        requires locks { HaveLocks locks.now (record { version = 2; clients = clients; cpus = cpus; buckets = buckets; specs = specs.now }) }
        ensures params { IfOk result (λ fresh. fresh.params ≡ record { version = 2; clients = clients; cpus = cpus; buckets = buckets; specs = specs.now }) }
        ensures locks { IfOk result (λ fresh. fresh.locks ≡ locks.now) }
    {
        let params = params_of(alloc, cpus, clients, buckets, specs)?;
        let (locks, kinds) = locks_of(alloc, locks)?;
        let (fresh, passes) = Service::boot(alloc, 2, cpus, buckets, clients, specs)?;
        Ok(TimersFresh {
            fresh,
            passes,
            params,
            locks,
            kinds,
        })
    }
}
