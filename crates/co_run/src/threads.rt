//! All actors of a run, each in a thread of its own where one can be had.
//!
//! Of each two halves of the seats the second is played in the thread that calls, and the first one in a new thread, or last
//! where none can be had. So the clients have the last seats, behind the interrupts, and the CPUs the first: an actor waits
//! only for actors that have begun.
ghost use Rattle.std.specs.Prelude.{◌<◌, ℕ, IfOk, length, slice_index_or};
ghost use Rattle.std.specs.List.{All};
ghost use Rattle.co_run.specs.Jobs.{AreJobs, HasPlayed, HavePlayed, IsCrew, IsSeat};

use crate::book::Book;
use crate::jobs::{Crew, Seat, play_seat};
use crate::shared::Shared;
use co_hand::Gate;
use co_sbt::NoMemory;
use co_service::Name;
use std::sync::Wait;
use std::thread::{Threads, for_each_mut};

/// Plays the programs of the actors of these seats at once. It takes no memory of its own, so that each of them begins.
fn play_seats<B: Book + Send, N: Name + Send + Sync, G: Gate + Sync, R: Threads + Wait + Sync>(
    rt: &R,
    shared: &Shared<'_, N, G>,
    seats: &mut [Seat<B>],
)
    requires { All (IsSeat shared.now.script.now N.name B.notes B.spare) seats.old }
    ensures { (k : ℕ) (seat : _) → k < length seats.old → HasPlayed shared.now.script.now N.name B.notes (slice_index_or seats.old k seat) (slice_index_or seats.new k seat) }
{
    let play = |_: usize, seat: &mut Seat<B>|
        requires { IsSeat shared.now.script.now N.name B.notes B.spare seat.now }
        ensures { HasPlayed shared.entry.now.script.now N.name B.notes seat.entry.now seat.exit.now }
    { play_seat(rt, shared, seat) };
    let threads = seats.len().max(1);
    for_each_mut(rt, seats, threads, &play);
}

/// Plays the programs of all actors at once.
pub(crate) fn play_all<
    B: Book + Send,
    N: Name + Send + Sync,
    G: Gate + Sync,
    R: Threads + Wait + Sync,
>(rt: &R, shared: &Shared<'_, N, G>, crew: Crew<B>) -> Result<Crew<B>, NoMemory>
    requires { IsCrew shared.now.script.now (AreJobs shared.now.script.now N.name B.notes B.spare) crew }
    ensures { IfOk result (IsCrew shared.now.script.now (HavePlayed B.notes shared.now.script.now N.name)) }
{
    let Crew {
        mut clients,
        cpus: mut seats,
        mut interrupts,
    } = crew;
    let (cpus, others) = (seats.len(), interrupts.len());
    seats.append(&mut interrupts)?;
    seats.append(&mut clients)?;
    play_seats(rt, shared, seats.as_mut_slice());
    let mut interrupts = seats.split_off(cpus)?;
    let clients = interrupts.split_off(others)?;
    Ok(Crew {
        clients,
        cpus: seats,
        interrupts,
    })
}
