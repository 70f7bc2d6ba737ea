//! The job of one actor: its whole program.
ghost use Rattle.std.specs.Prelude.{◌≡◌, ◌+◌, ◌<◌, ◌≤◌, ◌++◌, ◌∷◌, [], IfOk, length};
ghost use Rattle.co_program.specs.Scripts.{IsScript};
ghost use Rattle.co_service.specs.Booted.{AreBooted};
ghost use Rattle.co_run.specs.Acting.{params_of};
ghost use Rattle.co_run.specs.Jobs.{AreJobs, AreLeft, HaveBooks, HasPlayed, IsCrew, IsGroup, IsJob, IsSeat};
ghost use Rattle.co_run.specs.Over.{IsActorOver};

use crate::actor::Actor;
use crate::book::Book;
use crate::shared::Shared;
use co_hand::Gate;
use co_program::{Script, actor_count};
use co_sbt::{NoMemory, Seq};
use co_service::{Name, Passes};
use std::alloc::Global;
use std::mem::replace;
use std::sync::Wait;

/// What an actor begins with, and what it brings back.
#[derive(Drop)]
pub(crate) struct Kit<B: Book> {
    pub(crate) passes: Passes,
    pub(crate) book: B,
}

/// The seat of an actor. There stands what it begins with, and once it has played what it brings back, or that it was refused
/// memory.
pub(crate) type Seat<B> = Result<Kit<B>, NoMemory>;

/// Takes the last of these.
pub(crate) fn take_last<T: Drop>(all: &mut Vec<T>) -> T
    requires { 0 < length all.old.items }
    ensures { all.old.items ≡ all.new.items ++ result ∷ [] }
{
    all.pop().unwrap()
}

/// The seats of `count` actors, of the last ones that have none, the last of all first. `NoMemory` where there is no room for
/// them.
fn deal<N: Name, B: Book>(
    alloc: Global,
    script: &Script,
    passes: &mut Vec<Passes>,
    books: &mut Vec<B>,
    count: u32,
) -> Result<Vec<Seat<B>>, NoMemory>
    requires enough { count ≤ length passes.old.items }
    requires left { AreLeft B.notes B.spare script.now N.name passes.old.items books.old.items }
    ensures left { IfOk result (λ seats. AreLeft B.notes B.spare script.now N.name passes.new.items books.new.items) }
    ensures less { IfOk result (λ seats. length passes.new.items + count ≡ length passes.old.items) }
    ensures dealt { IfOk result (λ seats. IsGroup (AreJobs script.now N.name B.notes B.spare) (length passes.new.items) (length passes.old.items) seats.items) }
{
    let _ = script;
    let mut seats = Seq::new(alloc);
    for dealt in 0..count {
        let _ = dealt;
        let kit = Kit {
            passes: take_last(passes),
            book: take_last(books),
        };
        seats.push(Ok(kit))?;
    }
    Ok(seats.into_vec())
}

/// The seats of all actors by their kinds, in each kind those of the last ones first.
#[derive(Drop)]
pub(crate) struct Crew<B: Book> {
    pub(crate) clients: Vec<Seat<B>>,
    pub(crate) cpus: Vec<Seat<B>>,
    pub(crate) interrupts: Vec<Seat<B>>,
}

/// A seat for each actor.
pub(crate) fn deal_all<N: Name, B: Book>(
    alloc: Global,
    script: &Script,
    passes: Seq<Passes>,
    books: Seq<B>,
) -> Result<Crew<B>, NoMemory>
    requires script { IsScript script.now }
    requires passes { AreBooted N.name (params_of script.now) passes }
    requires books { HaveBooks B.notes B.spare script.now books }
    ensures { IfOk result (IsCrew script.now (AreJobs script.now N.name B.notes B.spare)) }
{
    let mut passes = passes.into_vec();
    let mut books = books.into_vec();
    let clients = script.clients.as_slice().len() as u32;
    let others = actor_count(script) - clients - script.cpus;
    let interrupts = deal::<N, B>(alloc, script, &mut passes, &mut books, others)?;
    let cpus = deal::<N, B>(alloc, script, &mut passes, &mut books, script.cpus)?;
    let clients = deal::<N, B>(alloc, script, &mut passes, &mut books, clients)?;
    Ok(Crew {
        clients,
        cpus,
        interrupts,
    })
}

/// What an actor brings back whose program is over.
fn played_by<B: Book>(actor: Actor<'_, B>) -> Kit<B>
    ensures passes { result.passes ≡ actor.entry.passes }
    ensures book { result.book ≡ actor.entry.book }
{
    let Actor { passes, book, .. } = actor;
    Kit { passes, book }
}

/// Plays the whole program of the actor of this number.
fn play_job<B: Book, N: Name, G: Gate, R: Wait + Sync>(
    rt: &R,
    shared: &Shared<'_, N, G>,
    number: u32,
    job: Kit<B>,
) -> Result<Kit<B>, NoMemory>
    requires job { IsJob shared.now.script.now N.name number job.passes (B.notes job.book) (B.spare job.book) }
    ensures { IfOk result (λ played. IsActorOver shared.now.script.now N.name number played.passes (B.notes played.book)) }
{
    let Kit { passes, book } = job;
    let mut actor = Actor::begins(shared, number, passes, book);
    match actor.play(rt, shared) {
        Ok(()) => Ok(played_by(actor)),
        Err(refused) => {
            // By calls: a `?` would write out here how each part of the actor goes.
            drop(played_by(actor));
            Err(refused)
        }
    }
}

/// Plays the whole program of the actor of this seat.
pub(crate) fn play_seat<B: Book, N: Name, G: Gate, R: Wait + Sync>(
    rt: &R,
    shared: &Shared<'_, N, G>,
    seat: &mut Seat<B>,
)
    requires { IsSeat shared.now.script.now N.name B.notes B.spare seat.old }
    ensures { HasPlayed shared.now.script.now N.name B.notes seat.old seat.new }
{
    if let Ok(kit) = replace(seat, Err(NoMemory {})) {
        let number = kit.passes.actor();
        *seat = play_job(rt, shared, number, kit);
    }
}
