//! The ledger before the first step.
ghost use Rattle.std.specs.Prelude.{◌≡◌, replicate, IfOk};
ghost use Rattle.co_core.specs.Booted.{HasNoEntries, NobodyActs};
ghost use Rattle.co_program.specs.Scripts.{IsScript};
ghost use Rattle.co_core.specs.Holders.{no_holders};
ghost use Rattle.co_core.specs.Stands.{ShowsBooked};
ghost use Rattle.co_world.specs.World.{open_world};
ghost use Rattle.co_core.specs.Written.{first_cursor};

use super::Ledger;
use super::holders::Holders;
use crate::copies::copies;
use co_lock::Held;
use co_object::Next;
use co_program::{Cursor, PendingInsert, Script, Stage, actor_count};
use co_sbt::{NoMemory, Sbt};
use std::alloc::Global;

/// The cursor before the first act of any program.
fn first_cursor() -> Cursor
    ensures { result ≡ first_cursor }
{
    Cursor {
        task: 0,
        act: 0,
        time: Sbt::zero(),
        hold: None,
        stage: Stage::Ready,
        removed: None,
        parcel: None,
    }
}

/// The cursors of `count` actors, before their first acts. `NoMemory` where there is no room for them.
fn first_cursors(alloc: Global, count: usize) -> Result<Vec<Cursor>, NoMemory>
    ensures { IfOk result (λ cursors. cursors.items ≡ replicate count first_cursor) }
{
    // The checker wants each enum inside a cursor that holds a time to be named where a cursor is passed on.
    let _stage = Stage::Ready;
    let _parts: (Option<PendingInsert>, Option<Next>, Option<Held>) = (None, None, None);
    copies(alloc, count, first_cursor())
}

/// The holders of `locks` locks: nobody holds one. `NoMemory` where there is no room for them.
fn nobody(alloc: Global, locks: usize) -> Result<Vec<Holders>, NoMemory>
    ensures { IfOk result (λ holders. holders.items ≡ replicate locks no_holders) }
{
    copies(alloc, locks, Holders::none())
}

/// What is booked by actor, and who holds the locks.
#[derive(Drop)]
struct ActorTables {
    cursors: Vec<Cursor>,
    holders: Vec<Holders>,
    own: Vec<u64>,
}

/// `actors` actors before their first acts, of which none holds one of the `locks` locks. `NoMemory` where there is no room.
fn first_actors(alloc: Global, actors: usize, locks: usize) -> Result<ActorTables, NoMemory>
    ensures { IfOk result (λ tables. NobodyActs actors locks tables.cursors.items tables.holders.items tables.own.items) }
{
    let cursors = first_cursors(alloc, actors)?;
    let holders = nobody(alloc, locks)?;
    let own = copies(alloc, actors, 0)?;
    Ok(ActorTables {
        cursors,
        holders,
        own,
    })
}

/// How many entries there are, by callout and by CPU.
#[derive(Drop)]
struct EntryCounts {
    histories: Vec<u64>,
    journals: Vec<u64>,
    scans: Vec<u64>,
}

/// No entry of `timers` callouts and `cpus` CPUs. `NoMemory` where there is no room for the counts.
fn no_entries(alloc: Global, timers: usize, cpus: usize) -> Result<EntryCounts, NoMemory>
    ensures { IfOk result (λ counts. HasNoEntries timers cpus counts.histories.items counts.journals.items counts.scans.items) }
{
    let histories = copies(alloc, timers, 0)?;
    let journals = copies(alloc, cpus, 0)?;
    let scans = copies(alloc, cpus, 0)?;
    Ok(EntryCounts {
        histories,
        journals,
        scans,
    })
}

impl Ledger {
    /// The ledger before the first step: each actor stands before its first act, and nothing has been noted.
    pub(crate) fn boot(alloc: Global, script: &Script) -> Result<Ledger, NoMemory>
        requires { IsScript script.now }
        ensures { IfOk result (λ ledger. ShowsBooked script.now ledger (open_world script.now)) }
    {
        let actors = actor_count(script) as usize;
        let locks = script.locks.as_slice().len();
        let timers = script.timers.as_slice().len();
        let tables = first_actors(alloc, actors, locks)?;
        let counts = no_entries(alloc, timers, script.cpus as usize)?;
        Ok(Ledger {
            cursors: tables.cursors,
            holders: tables.holders,
            histories: counts.histories,
            journals: counts.journals,
            scans: counts.scans,
            own: tables.own,
            made: 0,
        })
    }
}
