//! A script's run on threads.
ghost use Rattle.std.specs.Prelude.{◌≡◌, ◌+◌, ◌<◌, IfOk, OnOk, map, length};
ghost use Rattle.co_program.specs.Actors.{actor_count};
ghost use Rattle.co_program.specs.Scripts.{IsScript};
ghost use Rattle.co_desk.specs.Params.{AreParams};
ghost use Rattle.co_run.specs.Acting.{HasLocks, params_of};
ghost use Rattle.co_run.specs.Jobs.{AreBlank, HaveBooks, HavePlayed, IsCrew, IsGroup, MayRun};
ghost use Rattle.co_run.specs.Over.{AreOver, IsActorOver};
ghost use Rattle.co_run.specs.Ran.{IsRan};

use crate::book::{Book, KeptBook, Notebook, PackedBook};
use crate::jobs::{Crew, Kit, Seat, deal_all, take_last};
use crate::longest::longest_of;
use crate::shared::Shared;
use crate::threads::play_all;
use co_hand::Gate;
use co_lock::ClientLocks;
use co_object::{Lists, Note};
use co_packed::PackedNote;
use co_program::{Script, actor_count};
use co_sbt::{NoMemory, Seq};
use co_service::{Closing, Fresh, Name, Passes, Service};
use std::alloc::Global;
use std::marker::Brand;
use std::sync::Wait;
use std::thread::Threads;

/// What a run on threads brings back.
#[derive(Drop)]
pub struct Ran {
    /// The notes of each actor, in the order of the actors' numbers.
    pub lists: Lists,
    /// What is left of the service: its name, and the history of each callout and each CPU.
    pub closing: Closing,
}

/// What a run on threads brings back, with packed notes.
#[derive(Drop)]
pub struct PackedRan {
    /// The notes of each actor, in the order of the actors' numbers.
    pub lists: Seq<Seq<PackedNote>>,
    /// What is left of the service: its name, and the history of each callout and each CPU.
    pub closing: Closing,
}

/// What all actors bring back: their passes, and the book of each.
#[derive(Drop)]
struct Brought<B: Book> {
    passes: Seq<Passes>,
    books: Seq<B>,
}

/// The books of all actors, and what is left of the service.
#[derive(Drop)]
struct Left<B: Book> {
    books: Seq<B>,
    closing: Closing,
}

/// What the next actor brings back goes to the others'.
fn add<N: Name, B: Book>(script: &Script, all: &mut Brought<B>, one: Kit<B>) -> Result<(), NoMemory>
    requires over { AreOver script.now N.name 0 all.old.passes (map B.notes all.old.books) }
    requires one { IsActorOver script.now N.name (length all.old.books) one.passes (B.notes one.book) }
    ensures over { OnOk result (AreOver script.now N.name 0 all.new.passes (map B.notes all.new.books)) }
    ensures count { OnOk result (length all.new.books ≡ length all.old.books + 1) }
{
    let _ = script;
    let Kit { passes, book } = one;
    all.passes.push(passes)?;
    all.books.push(book)
}

/// What the next actors bring back, the first of whom stands last, goes to the others'.
fn add_group<N: Name, B: Book>(
    script: &Script,
    mut all: Brought<B>,
    mut group: Vec<Seat<B>>,
    end: u32,
) -> Result<Brought<B>, NoMemory>
    requires over { AreOver script.now N.name 0 all.passes (map B.notes all.books) }
    requires group { IsGroup (HavePlayed B.notes script.now N.name) (length all.books) end group.items }
    ensures over { IfOk result (λ all. AreOver script.now N.name 0 all.passes (map B.notes all.books)) }
    ensures count { IfOk result (λ all. length all.books ≡ end) }
{
    for next in all.books.as_slice().len()..end as usize {
        let _ = next;
        let one = take_last(&mut group)?;
        add::<N, B>(script, &mut all, one)?;
    }
    Ok(all)
}

/// The notes of all actors in the order of their numbers, and their passes.
fn add_crew<N: Name, B: Book>(
    alloc: Global,
    script: &Script,
    crew: Crew<B>,
) -> Result<Brought<B>, NoMemory>
    requires script { IsScript script.now }
    requires crew { IsCrew script.now (HavePlayed B.notes script.now N.name) crew }
    ensures over { IfOk result (λ all. AreOver script.now N.name 0 all.passes (map B.notes all.books)) }
    ensures count { IfOk result (λ all. length all.books ≡ actor_count script.now) }
{
    let clients = script.clients.as_slice().len() as u32;
    let none = Brought {
        passes: Seq::new(alloc),
        books: Seq::new(alloc),
    };
    let of_clients = add_group::<N, B>(script, none, crew.clients, clients)?;
    let with_cpus = add_group::<N, B>(script, of_clients, crew.cpus, clients + script.cpus)?;
    add_group::<N, B>(script, with_cpus, crew.interrupts, actor_count(script))
}

/// Ends the service once all programs are over.
fn finish<N: Name, B: Book, R: Wait>(
    rt: &R,
    script: &Script,
    service: Service<N>,
    all: Brought<B>,
) -> Left<B>
    requires script { IsScript script.now }
    requires service { service ≡ params_of script.now }
    requires over { AreOver script.now N.name 0 all.passes (map B.notes all.books) }
    requires count { length all.books ≡ actor_count script.now }
    ensures name { result.closing.name ≡ N.name }
    ensures run { IsRan script.now (record { lists = map B.notes result.books; closing = result.closing }) }
{
    let _ = script;
    let Brought { passes, books } = all;
    Left {
        books,
        closing: service.close(rt, passes),
    }
}

/// Plays the programs of all actors over an open service, each in a thread of its own where one can be had.
fn play_books<N: Name + Send + Sync, G: Gate + Sync, B: Book + Send, R: Threads + Wait + Sync>(
    rt: &R,
    alloc: Global,
    script: &Script,
    gate: &G,
    service: &Service<N>,
    passes: Seq<Passes>,
    books: Seq<B>,
) -> Result<Brought<B>, NoMemory>
    requires may { MayRun script.now N.name service.now passes }
    requires books { HaveBooks B.notes B.spare script.now books }
    ensures over { IfOk result (λ all. AreOver script.now N.name 0 all.passes (map B.notes all.books)) }
    ensures count { IfOk result (λ all. length all.books ≡ actor_count script.now) }
{
    let crew = deal_all::<N, B>(alloc, script, passes, books)?;
    let locks = ClientLocks::new(alloc, script.locks.as_slice())?;
    let shared = Shared {
        script,
        service,
        locks: &locks,
        gate,
        longest: longest_of(script),
    };
    let crew = play_all(rt, &shared, crew);
    drop(locks);
    add_crew::<N, B>(alloc, script, crew?)
}

/// Runs a script on threads over an open service, and ends the service. Each actor notes into one of the books.
fn run_open<N: Name + Send + Sync, G: Gate + Sync, B: Book + Send, R: Threads + Wait + Sync>(
    rt: &R,
    alloc: Global,
    script: &Script,
    gate: &G,
    service: Service<N>,
    passes: Seq<Passes>,
    books: Seq<B>,
) -> Result<Left<B>, NoMemory>
    requires may { MayRun script.now N.name service passes }
    requires books { HaveBooks B.notes B.spare script.now books }
    ensures name { IfOk result (λ left. left.closing.name ≡ N.name) }
    ensures run { IfOk result (λ left. IsRan script.now (record { lists = map B.notes left.books; closing = left.closing })) }
{
    match play_books(rt, alloc, script, gate, &service, passes, books) {
        Ok(all) => Ok(finish(rt, script, service, all)),
        Err(refused) => {
            drop(service);
            Err(refused)
        }
    }
}

/// The notes of each book.
fn lists_of<B: Notebook>(alloc: Global, books: Seq<B>) -> Result<Lists, NoMemory>
    ensures { IfOk result (λ lists. lists ≡ map B.notes books) }
{
    let mut lists = Seq::new(alloc);
    for book in books.into_vec() {
        lists.push(book.into_notes())?;
    }
    Ok(lists)
}

/// The packed notes of each book.
fn packed_lists(alloc: Global, books: Seq<PackedBook>) -> Result<Seq<Seq<PackedNote>>, NoMemory>
    ensures { IfOk result (λ lists. lists ≡ map (λ b. b.notes.items) books) }
{
    let mut lists = Seq::new(alloc);
    for book in books.into_vec() {
        lists.push(book.into_kept())?;
    }
    Ok(lists)
}

/// What a run brings back, from the books of its actors.
fn told<B: Notebook>(alloc: Global, script: &Script, left: Left<B>) -> Result<Ran, NoMemory>
    requires { IsRan script.now (record { lists = map B.notes left.books; closing = left.closing }) }
    ensures name { IfOk result (λ ran. ran.closing.name ≡ left.closing.name) }
    ensures run { IfOk result (IsRan script.now) }
{
    let _ = script;
    let Left { books, closing } = left;
    match lists_of(alloc, books) {
        Ok(lists) => Ok(Ran { lists, closing }),
        Err(refused) => {
            drop(closing);
            Err(refused)
        }
    }
}

/// The same, where the notes are packed.
fn packed(alloc: Global, script: &Script, left: Left<PackedBook>) -> Result<PackedRan, NoMemory>
    requires { IsRan script.now (record { lists = map (λ b. b.notes.items) left.books; closing = left.closing }) }
    ensures { IfOk result (λ ran. IsRan script.now (record { lists = ran.lists; closing = ran.closing })) }
{
    let _ = script;
    let Left { books, closing } = left;
    match packed_lists(alloc, books) {
        Ok(lists) => Ok(PackedRan { lists, closing }),
        Err(refused) => {
            drop(closing);
            Err(refused)
        }
    }
}

/// Runs a script on threads over an open service, each actor in a thread of its own where one can be had, and ends the service. Each actor
/// notes into one of the books, in the order of the actors' numbers; all are empty.
///
/// The passes are those of the service's boot, by the script's version, CPUs, buckets, number of clients and callouts; they
/// have seen nothing. The gate is called before each act of an actor, the acts of functions included. It changes no value, so
/// that no clause can speak of its calls.
///
/// `NoMemory` is the only refusal. An actor whose book is refused room lets go of its lock and stops between two services, an
/// interrupt once all its Scans are made. The others play on, and the whole answers `NoMemory`.
pub fn run_books<
    N: Name + Send + Sync,
    G: Gate + Sync,
    B: Notebook + Send,
    R: Threads + Wait + Sync,
>(
    rt: &R,
    alloc: Global,
    script: &Script,
    gate: &G,
    service: Service<N>,
    passes: Seq<Passes>,
    books: Seq<B>,
) -> Result<Ran, NoMemory>
    requires may { MayRun script.now N.name service passes }
    requires books { HaveBooks B.notes B.spare script.now books }
    ensures name { IfOk result (λ ran. ran.closing.name ≡ N.name) }
    ensures run { IfOk result (IsRan script.now) }
{
    let left = run_open(rt, alloc, script, gate, service, passes, books)?;
    told(alloc, script, left)
}

/// An empty book for each actor.
fn empty_books<T: Drop>(alloc: Global, script: &Script) -> Result<Seq<KeptBook<T>>, NoMemory>
    requires { IsScript script.now }
    ensures count { IfOk result (λ books. length books ≡ actor_count script.now) }
    ensures blank { IfOk result AreBlank }
{
    let mut books = Seq::new(alloc);
    for made in 0..actor_count(script) {
        let _ = made;
        books.push(KeptBook::new(alloc))?;
    }
    Ok(books)
}

/// Runs a script on threads over an open service, as [`run_books`] does with a [`RoomBook`] for each actor. `NoMemory`
/// is the only refusal.
pub fn run_on<N: Name + Send + Sync, G: Gate + Sync, R: Threads + Wait + Sync>(
    rt: &R,
    alloc: Global,
    script: &Script,
    gate: &G,
    service: Service<N>,
    passes: Seq<Passes>,
) -> Result<Ran, NoMemory>
    requires { MayRun script.now N.name service passes }
    ensures name { IfOk result (λ ran. ran.closing.name ≡ N.name) }
    ensures run { IfOk result (IsRan script.now) }
{
    match empty_books::<Note>(alloc, script) {
        Ok(books) => run_books(rt, alloc, script, gate, service, passes, books),
        Err(refused) => {
            drop(service);
            Err(refused)
        }
    }
}

/// Opens a service, and runs the script on it with these books.
fn run_fresh<N: Name + Send + Sync, G: Gate + Sync, B: Book + Send, R: Threads + Wait + Sync>(
    rt: &R,
    alloc: Global,
    script: &Script,
    gate: &G,
    fresh: Fresh,
    passes: Seq<Passes>,
    books: Seq<B>,
) -> Result<Left<B>, NoMemory>
    requires name { fresh.name ≡ N.name }
    requires may { MayRun script.now N.name fresh.params passes }
    requires books { HaveBooks B.notes B.spare script.now books }
    ensures { IfOk result (λ left. IsRan script.now (record { lists = map B.notes left.books; closing = left.closing })) }
{
    let service = Service::<N>::open(alloc, fresh)?;
    run_open(rt, alloc, script, gate, service, passes, books)
}

/// Boots a service by the script's version, CPUs, buckets, number of clients and callouts, and runs the script on it with
/// these books.
fn run_booted<G: Gate + Sync, B: Book + Send, R: Threads + Wait + Sync>(
    rt: &R,
    alloc: Global,
    script: &Script,
    gate: &G,
    books: Seq<B>,
) -> Result<Left<B>, NoMemory>
    requires script { IsScript script.now }
    requires locks { HasLocks script.now }
    requires params { AreParams (params_of script.now) }
    requires books { HaveBooks B.notes B.spare script.now books }
    ensures { IfOk result (λ left. IsRan script.now (record { lists = map B.notes left.books; closing = left.closing })) }
{
    let clients = script.clients.as_slice().len() as u32;
    let (fresh, passes) = Fresh::boot(
        alloc,
        script.version,
        script.cpus,
        script.buckets,
        clients,
        script.timers.as_slice(),
    )?;
    run_fresh::<Brand, G, B, R>(rt, alloc, script, gate, fresh, passes, books)
}

/// Runs a script on threads over a service of its own, which is booted by the script's version, CPUs, buckets, number of
/// clients and callouts. The gate is called before each act. `NoMemory` is the only refusal.
pub fn run_threads<G: Gate + Sync, R: Threads + Wait + Sync>(
    rt: &R,
    alloc: Global,
    script: &Script,
    gate: &G,
) -> Result<Ran, NoMemory>
    requires script { IsScript script.now }
    requires locks { HasLocks script.now }
    requires params { AreParams (params_of script.now) }
    ensures { IfOk result (IsRan script.now) }
{
    let books = empty_books::<Note>(alloc, script)?;
    let left = run_booted(rt, alloc, script, gate, books)?;
    told(alloc, script, left)
}

/// As [`run_threads`], with packed notes, which take about half the memory.
pub fn run_packed<G: Gate + Sync, R: Threads + Wait + Sync>(
    rt: &R,
    alloc: Global,
    script: &Script,
    gate: &G,
) -> Result<PackedRan, NoMemory>
    requires script { IsScript script.now }
    requires locks { HasLocks script.now }
    requires params { AreParams (params_of script.now) }
    ensures { IfOk result (λ ran. IsRan script.now (record { lists = ran.lists; closing = ran.closing })) }
{
    let books = empty_books::<PackedNote>(alloc, script)?;
    let left = run_booted(rt, alloc, script, gate, books)?;
    packed(alloc, script, left)
}
