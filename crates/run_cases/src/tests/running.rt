//! Scripts that run on threads, and what is judged of their reports.
ghost use Rattle.std.specs.Prelude.{◌≡◌, IfOk, length};
ghost use Rattle.co_program.specs.Actors.{actor_count};
ghost use Rattle.co_service.specs.Booted.{AreBooted};
ghost use Rattle.co_service.specs.Fresh.{AreNamed};
ghost use Rattle.co_run.specs.Acting.{params_of};
ghost use Rattle.co_run.specs.Jobs.{AreEmptyBooks};
ghost use Rattle.co_run.specs.Ran.{IsRan};
ghost use Rattle.run_cases.specs.Scenes.{CanRun};

use co_check::{Verdict, check};
use co_hand::Gate;
use co_object::{Lists, Note, Place};
use co_program::Script;
use co_report::{print_report, read_report};
use co_run::{Notebook, Ran, run_books, run_threads};
use co_sbt::{NoMemory, Seq};
use co_script::read_script;
use co_service::{Fresh, Name, Passes, Service};
use std::alloc::Global;
use std::marker::Brand;
use std::process::Abort;
use std::sync::Wait;
use std::thread::Threads;

/// The script that a text is.
pub(super) fn script_of(rt: &impl Abort, alloc: Global, text: &[u8]) -> Script
    ensures { CanRun result }
{
    let Ok(script) = read_script(alloc, text) else {
        panic!(rt; "no script")
    };
    script
}

/// Whether a text is a legal report.
pub(super) fn is_legal(alloc: Global, text: &[u8]) -> bool {
    match read_report(alloc, text) {
        Ok(report) => {
            let verdict = check(alloc, &report);
            drop(report);
            matches!(verdict, Ok(Verdict::Legal))
        }
        Err(_) => false,
    }
}

/// Whether the report of a run is legal.
pub(super) fn is_run_legal(alloc: Global, script: &Script, ran: &Ran) -> bool
    requires { IsRan script.now ran.now }
{
    match print_report(alloc, script, &ran.lists) {
        Ok(text) => is_legal(alloc, text.as_slice()),
        Err(_) => false,
    }
}

/// The notes of a run, whose report is legal.
pub(super) fn legal_lists(rt: &impl Abort, alloc: Global, script: &Script, ran: Ran) -> Lists
    requires { IsRan script.now ran }
{
    assert!(rt; is_run_legal(alloc, script, &ran));
    ran.lists
}

/// Runs the script of a text on threads. Its report is legal.
pub(super) fn run_text<G: Gate + Sync, R: Threads + Wait + Sync + Abort>(
    rt: &R,
    alloc: Global,
    text: &[u8],
    gate: &G,
) -> Lists {
    let script = script_of(rt, alloc, text);
    let ran = run_threads(rt, alloc, &script, gate).expect(rt, "no memory");
    let lists = legal_lists(rt, alloc, &script, ran);
    drop(script);
    lists
}

/// Opens a service, and runs the script on it with these books.
fn open_and_run<
    N: Name + Send + Sync,
    G: Gate + Sync,
    B: Notebook + Send,
    R: Threads + Wait + Sync + Abort,
>(
    rt: &R,
    alloc: Global,
    script: &Script,
    gate: &G,
    fresh: Fresh,
    passes: Seq<Passes>,
    books: Seq<B>,
) -> Result<Ran, NoMemory>
    requires script { CanRun script.now }
    requires name { fresh.name ≡ N.name }
    requires params { fresh.params ≡ params_of script.now }
    requires named { AreNamed fresh.name fresh.params }
    requires passes { AreBooted fresh.name fresh.params passes }
    requires books { length books ≡ actor_count script.now }
    requires empty { AreEmptyBooks B.notes B.spare books }
    ensures { IfOk result (IsRan script.now) }
{
    let service = Service::<N>::open(alloc, fresh).expect(rt, "no memory");
    run_books(rt, alloc, script, gate, service, passes, books)
}

/// Runs a script on threads over a service that is booted for it, each actor with one of these books. `NoMemory` is the run's.
pub(super) fn run_with<G: Gate + Sync, B: Notebook + Send, R: Threads + Wait + Sync + Abort>(
    rt: &R,
    alloc: Global,
    script: &Script,
    gate: &G,
    books: Seq<B>,
) -> Result<Ran, NoMemory>
    requires script { CanRun script.now }
    requires books { length books ≡ actor_count script.now }
    requires empty { AreEmptyBooks B.notes B.spare books }
    ensures { IfOk result (IsRan script.now) }
{
    let clients = script.clients.as_slice().len() as u32;
    let made = Fresh::boot(
        alloc,
        script.version,
        script.cpus,
        script.buckets,
        clients,
        script.timers.as_slice(),
    )
    .expect(rt, "no memory");
    let (fresh, passes) = made;
    open_and_run::<Brand, G, B, R>(rt, alloc, script, gate, fresh, passes, books)
}

/// The notes of an actor.
pub(super) fn notes_of<'l>(rt: &impl Abort, lists: &'l Lists, actor: usize) -> &'l [Note] {
    assert!(rt; actor < lists.as_slice().len());
    lists.as_slice()[actor].as_slice()
}

/// How many of these notes stand in a place.
pub(super) fn count_in(notes: &[Note], place: Place) -> usize {
    let mut count: usize = 0;
    for note in notes {
        if note.place == place {
            count = count.saturating_add(1);
        }
    }
    count
}

/// How many of these notes stand in the histories of callouts.
pub(super) fn count_timers(notes: &[Note]) -> usize {
    let mut count: usize = 0;
    for note in notes {
        if let Place::Timer(_) = note.place {
            count = count.saturating_add(1);
        }
    }
    count
}
