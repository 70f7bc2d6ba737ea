//! Actors that wait for each other at the gate.
ghost use Rattle.std.specs.Prelude.{◌≡◌, IfOk, length, vec_len};
ghost use Rattle.co_run.specs.Jobs.{AreEmptyBooks};
ghost use Rattle.co_run.specs.Ran.{IsRan};
ghost use Rattle.run_cases.specs.Scenes.{CanRun};

use super::running::{legal_lists, run_with, script_of};
use co_hand::Gate;
use co_object::{Lists, Note};
use co_program::{Script, actor_count};
use co_run::{Notebook, Ran, ShortBook};
use co_sbt::{NoMemory, Seq};
use std::alloc::Global;
use std::process::Abort;
use std::sync::Wait;
use std::sync::atomic::{AtomicU64, Ordering};
use std::thread::{Threads, yield_now};

/// How often a thread looks before it gives up.
const LOOKS: u64 = 10_000_000;

/// A number that no reserve has.
const NO_RESERVE: u64 = u64::MAX;

/// Looks until a word is at least so much. False where it isn't after all looks.
pub(super) fn comes_to(word: &AtomicU64, least: u64) -> bool {
    for _ in 0..LOOKS {
        if word.load(Ordering::SeqCst) >= least {
            return true;
        }
        yield_now();
    }
    false
}

/// What is known of an actor while it runs.
#[derive(Drop)]
pub(super) struct Told {
    /// How many of its acts were announced.
    acts: AtomicU64,
    /// How many notes it has made.
    notes: AtomicU64,
}

/// What is told of so many actors before they begin.
pub(super) fn nothing_told(rt: &impl Abort, alloc: Global, actors: u32) -> Vec<Told>
    ensures { vec_len result ≡ actors }
{
    let mut all = Vec::new(alloc);
    for made in 0..actors {
        let _ = made;
        let told = Told {
            acts: AtomicU64::new(0),
            notes: AtomicU64::new(0),
        };
        all.push(told).expect(rt, "no memory");
    }
    all
}

/// How far an actor has come.
#[derive(Clone, Copy)]
pub(super) enum Far {
    /// It has announced this many of its acts.
    Acts(u64),
    /// It has made so many notes.
    Notes(u64),
}

/// An act of an actor waits until another actor has come so far.
#[derive(Clone, Copy)]
pub(super) struct After {
    pub(super) actor: u32,
    pub(super) act: u64,
    pub(super) other: u32,
    pub(super) far: Far,
}

/// A gate at which acts are announced, and wait for what they come after.
#[derive(Drop)]
pub(super) struct Waits<'a> {
    after: &'a [After],
    told: &'a [Told],
    /// How many acts were announced out of their order, and how many waits gave up.
    faults: AtomicU64,
}

impl<'a> Waits<'a> {
    pub(super) fn new(after: &'a [After], told: &'a [Told]) -> Waits<'a> {
        Waits {
            after,
            told,
            faults: AtomicU64::new(0),
        }
    }

    /// Whether an actor has come so far, or comes there before the looks are over.
    fn comes(&self, other: u32, far: Far) -> bool {
        let Some(told) = self.told.get(other as usize) else {
            return false;
        };
        match far {
            Far::Acts(count) => comes_to(&told.acts, count),
            Far::Notes(count) => comes_to(&told.notes, count),
        }
    }

    /// An actor announces an act. False where that is not its next.
    fn announce(&self, actor: u32, act: u64) -> bool {
        match self.told.get(actor as usize) {
            Some(told) => told.acts.fetch_add(1, Ordering::SeqCst) == act,
            None => false,
        }
    }

    /// How many acts of an actor were announced.
    fn announced(&self, actor: usize) -> Option<u64> {
        let told = self.told.get(actor)?;
        Some(told.acts.load(Ordering::SeqCst))
    }

    /// Whether each act was announced once and in its order, so many of each actor, and no wait gave up.
    pub(super) fn is_kept(&self, acts: &[u64]) -> bool {
        for (actor, count) in acts.iter().enumerate() {
            if self.announced(actor) != Some(*count) {
                return false;
            }
        }
        self.told.len() == acts.len() && self.faults.load(Ordering::SeqCst) == 0
    }
}

impl Gate for Waits<'_> {
    fn at(&self, actor: u32, act: u64) {
        if !self.announce(actor, act) {
            self.faults.fetch_add(1, Ordering::SeqCst);
        }
        for after in self.after {
            if after.actor == actor && after.act == act && !self.comes(after.other, after.far) {
                self.faults.fetch_add(1, Ordering::SeqCst);
            }
        }
    }
}

/// A notebook that tells how many notes it has, and refuses its reserve of one number.
#[derive(Drop)]
pub(super) struct ToldBook<'a> {
    book: ShortBook,
    told: &'a Told,
}

impl Notebook for ToldBook<'_> {
    ghost notes = { λ b. b.book.book.notes.items };

    ghost spare = { λ b. b.book.book.spare };

    fn reserve(&mut self, count: u32) -> Result<(), NoMemory> {
        self.book.reserve(count)
    }

    fn push(&mut self, note: Note) {
        self.book.push(note);
        self.told.notes.fetch_add(1, Ordering::SeqCst);
    }

    fn into_notes(self) -> Seq<Note> {
        self.book.into_notes()
    }
}

/// An empty book for each actor, of which the third's refuses its reserve of this number.
fn told_books<'a>(
    rt: &impl Abort,
    alloc: Global,
    told: &'a [Told],
    refused: u64,
) -> Seq<ToldBook<'a>>
    ensures count { length result ≡ length told.now }
    ensures empty { AreEmptyBooks (λ b. b.book.book.notes.items) (λ b. b.book.book.spare) result }
{
    let mut books = Seq::new(alloc);
    for told in told {
        let number = if books.as_slice().len() == 2 {
            refused
        } else {
            NO_RESERVE
        };
        let book = ToldBook {
            book: ShortBook::new(alloc, number),
            told,
        };
        books.push(book).expect(rt, "no memory");
    }
    books
}

/// Runs a script, with acts that wait for others. Each actor announces so many acts where their numbers are given: they may depend on
/// which actor comes first. Where the third actor's book refuses its reserve of this number the run ends with `NoMemory`.
pub(super) fn run_waiting<R: Threads + Wait + Sync + Abort>(
    rt: &R,
    alloc: Global,
    script: &Script,
    after: &[After],
    acts: Option<&[u64]>,
    refused: u64,
) -> Result<Ran, NoMemory>
    requires { CanRun script.now }
    ensures { IfOk result (IsRan script.now) }
{
    let told = nothing_told(rt, alloc, actor_count(script));
    let gate = Waits::new(after, told.as_slice());
    let books = told_books(rt, alloc, told.as_slice(), refused);
    let ran = run_with(rt, alloc, script, &gate, books);
    let kept = match acts {
        Some(acts) => gate.is_kept(acts),
        None => true,
    };
    assert!(rt; ran.is_err() || kept);
    drop(gate);
    drop(told);
    ran
}

/// Runs the script of a text, with acts that wait for others. Its report is legal, and each actor announces so many acts.
pub(super) fn run_in_order<R: Threads + Wait + Sync + Abort>(
    rt: &R,
    alloc: Global,
    text: &[u8],
    after: &[After],
    acts: &[u64],
) -> Lists {
    let script = script_of(rt, alloc, text);
    let ran = run_waiting(rt, alloc, &script, after, Some(acts), NO_RESERVE).expect(
        rt,
        "no memory",
    );
    let lists = legal_lists(rt, alloc, &script, ran);
    drop(script);
    lists
}
