//! The end of a service.
ghost use Rattle.std.specs.Prelude.{◌≡◌, ◌<◌, ◌≤◌, ◌^◌, ℕ, [], IfOk, length, map, slice_get};
ghost use Rattle.std.specs.List.{All};
ghost use Rattle.std.specs.declared.option.Option.TheVariants.{Some};
ghost use Rattle.co_desk.specs.declared.params.Params.{Params};
ghost use Rattle.co_service.specs.Closing.{AreMeeting, EndEach, Ends, HasEnded, HaveEnded, IsClosing, MayEndAll, of_actor};
ghost use Rattle.co_desk.specs.Meeting.{IsMet};
ghost use Rattle.co_desk.specs.Lines.{made, opening_of};
ghost use Rattle.co_desk.specs.Views.{IsKeeperOf};

use co_desk::{Books, CpuStory, Kind, Lives, Name, Passes, Places, TimerStory};
use co_life::{Closed, Keeper, Life, Shown};
use co_sbt::{NoMemory, Room, Seq};
use std::alloc::Global;
use std::marker::Model;
use std::sync::Wait;

/// The room for what the end of a service makes. It is taken at the opening, so that the end takes no memory.
#[derive(Drop)]
pub(crate) struct Ending<N: Name> {
    pub(crate) books: Room<Books<N>>,
    pub(crate) timers: Room<Closed<TimerStory>>,
    pub(crate) cpus: Room<Closed<CpuStory>>,
}

impl<N: Name> Model for Ending<N> {
    ghost use Rattle.co_service.specs.Closing.{EndingView, IsEnding};

    ghost Value = { EndingView };

    ghost view = { λ e. record { books = e.books; timers = e.timers; cpus = e.cpus } };

    ghost invariant = { λ e. IsEnding (record { books = e.books; timers = e.timers; cpus = e.cpus }) };
}

/// An empty list with room for `count` items. `NoMemory` where there is none for these.
pub(crate) fn room_for<T: Drop>(alloc: Global, count: usize) -> Result<Room<T>, NoMemory>
    ensures { IfOk result (λ room. (room.items ≡ []) × (count ≤ room.spare)) }
{
    let mut room = Room::from_seq(Seq::new(alloc));
    room.reserve(count)?;
    Ok(room)
}

impl<N: Name> Ending<N> {
    /// Room for as many callouts and CPUs as a service may have, 1024 and 16. `NoMemory` where there is none for
    /// these.
    pub(crate) fn new(alloc: Global) -> Result<Ending<N>, NoMemory> {
        let books = room_for(alloc, 16)?;
        let timers = room_for(alloc, 1024)?;
        let cpus = room_for(alloc, 16)?;
        Ok(Ending {
            books,
            timers,
            cpus,
        })
    }
}

/// What is left of a service after its end: the final history of each callout and of each CPU, by their numbers. These
/// stand in the proofs alone (our own decision).
///
/// Contracts see the service's name and these histories.
#[derive(Drop)]
pub struct Closing {
    name: Shown<Places>,
    timers: Seq<Closed<TimerStory>>,
    cpus: Seq<Closed<CpuStory>>,
}

impl Model for Closing {
    ghost use Rattle.std.specs.Prelude.{map};
    ghost use Rattle.co_service.specs.Closing.{ClosingView};
    ghost use Rattle.co_desk.specs.Lines.{made};

    ghost Value = { ClosingView };

    ghost view = { λ c. record { name = c.name.value; timers = map made c.timers; cpus = map made c.cpus } };
}

/// How many of these passes are an actor's.
fn count_of(passes: &Vec<Passes>, actor: usize) -> usize
    ensures { result ≡ of_actor passes.now.items actor }
{
    let mut count = 0;
    for at in 0..passes.len() {
        if passes[at].actor() as usize == actor {
            count += 1;
        }
    }
    count
}

/// An actor has one of these passes. It waits where the actor has none or two.
fn check_one<R: Wait>(rt: &R, passes: &Vec<Passes>, actor: usize)
    ensures { of_actor passes.now.items actor ≡ 1 }
{
    for _ in rt.forever() {
        if count_of(passes, actor) == 1 {
            return;
        }
    }
    unreachable!()
}

/// Each actor below the number of these passes has one of them.
pub(crate) fn check_each<R: Wait>(rt: &R, passes: &Vec<Passes>)
    ensures { (actor : ℕ) → actor < length passes.now.items → of_actor passes.now.items actor ≡ 1 }
{
    for actor in 0..passes.len() {
        check_one(rt, passes, actor);
    }
}

/// Compares each actor's pass of place `i` with its history.
fn meet_all<E: Drop, S: Kind<E>>(
    passes: &mut Vec<Passes>,
    life: &Life<S>,
    keeper: &mut Keeper<S>,
    i: u32,
)
    requires at { All (λ q. slice_get (S.kind.lives q.name) i ≡ Some life.now) passes.old.items }
    requires life { keeper.old.life ≡ life.now }
    requires opened { (params : Params) × (opening_of keeper.old.history ≡ Some (params, i)) }
    ensures { AreMeeting keeper.old keeper.new passes.old.items passes.new.items (IsMet S.kind i keeper.old) }
{
    for at in 0..passes.len() {
        let one = &mut passes[at];
        S::meet_at(one, life, keeper, i);
    }
}

/// Takes the keeper of place `i` from the books where it is. It is asked for again where none has it.
fn take<E: Drop, S: Kind<E>, N: Name, R: Wait>(
    rt: &R,
    books: &mut Vec<Books<N>>,
    i: u32,
) -> Keeper<S>
    ensures { (params : Params) × IsKeeperOf S.kind.Legal (S.kind.lives N.name) params i result }
{
    for _ in rt.forever() {
        if let Some(keeper) = S::take_at(books, i) {
            return keeper;
        }
    }
    unreachable!()
}

/// Ends the history of place `i`, once each actor's pass was compared with it.
fn end_place<E: Drop, S: Kind<E>, N: Name, R: Wait>(
    rt: &R,
    life: Life<S>,
    books: &mut Vec<Books<N>>,
    passes: &mut Vec<Passes>,
    i: u32,
) -> Closed<S>
    requires at { slice_get (S.kind.lives N.name) i ≡ Some life }
    requires passes { All (λ q. q.name ≡ N.name) passes.old.items }
    ensures { HasEnded passes.old.items passes.new.items (Ends S.kind (made result) i) }
{
    let mut keeper = take::<E, S, N, R>(rt, books, i);
    meet_all(passes, &life, &mut keeper, i);
    life.close(keeper)
}

/// Ends the histories of all places of a kind.
fn end_places<E: Drop, S: Kind<E>, N: Name, R: Wait>(
    rt: &R,
    lives: Lives<S>,
    books: &mut Vec<Books<N>>,
    passes: &mut Vec<Passes>,
    room: Room<Closed<S>>,
) -> Seq<Closed<S>>
    requires may { MayEndAll (S.kind.lives N.name) lives room }
    requires passes { All (λ q. q.name ≡ N.name) passes.old.items }
    ensures { HaveEnded (length (S.kind.lives N.name)) passes.old.items passes.new.items result (EndEach S.kind passes.old.items (map made result)) }
{
    let mut room = room;
    let mut i = 0;
    for life in lives.into_vec() {
        let closed = end_place(rt, life, books, passes, i);
        room.push(closed);
        i += 1;
    }
    room.into_seq()
}

/// Ends all histories of a service.
pub(crate) fn end_all<N: Name, R: Wait>(
    rt: &R,
    places: Places,
    books: Vec<Books<N>>,
    passes: Vec<Passes>,
    timers: Room<Closed<TimerStory>>,
    cpus: Room<Closed<CpuStory>>,
) -> Closing
    requires places { places ≡ N.name }
    requires few { (length N.name.timers < 2 ^ 32) × (length N.name.cpus < 2 ^ 32) }
    requires timers { (timers.items ≡ []) × (length N.name.timers ≤ timers.spare) }
    requires cpus { (cpus.items ≡ []) × (length N.name.cpus ≤ cpus.spare) }
    requires passes { All (λ q. q.name ≡ N.name) passes.items }
    ensures { IsClosing N.name passes.items result }
{
    let mut books = books;
    let mut passes = passes;
    let name = Shown::of(&places);
    let (callouts, wheels) = places.into_lives();
    let timers = end_places(rt, callouts, &mut books, &mut passes, timers);
    let cpus = end_places(rt, wheels, &mut books, &mut passes, cpus);
    Closing { name, timers, cpus }
}
