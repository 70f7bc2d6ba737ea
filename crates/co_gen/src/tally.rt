//! A listener that counts: what becomes of the armings of a script's callouts, note by note as they are told.
ghost use Rattle.std.specs.Prelude.{◌≡◌, ℕ, ◌<◌, ◌++◌, ◌∷◌, [], List, slice_get, IfOk, OnOk};
ghost use Rattle.co_listener.specs.MadeNotes.{MadeNote, IsInOrder, lists_by};
ghost use Rattle.co_program.specs.declared.script.Script.{Script};
ghost use Rattle.co_program.specs.Actors.{actor_count};
ghost use Rattle.co_program.specs.Runs.{actors_of};
ghost use Rattle.co_gen.specs.Laws.{HaveLegalHistories};
ghost use Rattle.co_gen.specs.Soak.{counts_of};
ghost use Rattle.co_gen.specs.Tally.{HasCounted, IsEntryTaken, at_end};

use crate::counts::Counts;
use crate::fates::{ToFire, count_entry, more};
use co_listener::Listener;
use co_object::{AnyEntry, Entry, Note, Place};
use co_program::Script;
use co_report::Subject;
use co_sbt::{NoMemory, Seq};
use std::alloc::Global;
use std::marker::PhantomData;

/// What of each callout is to fire after its entries so far, and the counts of what they decided. No note is kept. Our own
/// decision.
#[derive(Drop)]
pub struct Tally {
    callouts: Vec<ToFire>,
    counts: Counts,
}

/// The counts at the end of all histories: an accepted arming whose fate no entry decided is pending.
fn ended(counts: Counts) -> Counts
    ensures { result ≡ at_end counts }
{
    let pending = counts
        .armed
        .saturating_sub(counts.fired)
        .saturating_sub(counts.superseded)
        .saturating_sub(counts.stopped);
    Counts { pending, ..counts }
}

impl Tally {
    /// Before the first note.
    fn new(alloc: Global, script: &Script) -> Result<Tally, NoMemory>
        ensures { IfOk result (λ tally. HasCounted script.now tally []) }
    {
        let timers = script.timers.as_slice();
        let callouts = Seq::filled(alloc, timers.len(), ToFire::Nothing)?;
        let counts = Counts {
            notes: 0,
            armed: 0,
            fired: 0,
            superseded: 0,
            stopped: 0,
            pending: 0,
        };
        Ok(Tally {
            callouts: callouts.into_vec(),
            counts,
        })
    }

    /// Takes an entry of a callout; one that the script hasn't is not counted. Inlined, as is all to which the entry is handed:
    /// then the note that it stands in is never put together, since nothing else is looked at.
    #[inline(always)]
    fn take_entry(&mut self, timer: u32, entry: &Entry) -> Result<(), NoMemory>
        ensures { OnOk result (IsEntryTaken (slice_get self.old.callouts.items timer) self.old timer entry.now self.new) }
    {
        let at = timer as usize;
        if at >= self.callouts.len() {
            return Ok(());
        }
        count_entry(&mut self.counts, &mut self.callouts[at], entry)
    }

    /// Takes a note. Inlined where one is told, where its place is known, so that of most nothing is looked at.
    #[inline(always)]
    fn take(&mut self, note: &Note) -> Result<(), NoMemory>
        ensures { OnOk result ((s : Script) (made : List MadeNote) (actor : ℕ) → actor < actor_count s → HasCounted s self.old made →
            HasCounted s self.new (made ++ record { actor = actor; note = note.now } ∷ [])) }
    {
        self.counts.notes = more(self.counts.notes)?;
        match note.place {
            Place::Timer(timer) => match &note.entry {
                AnyEntry::Timer(entry) => self.take_entry(timer, entry),
                AnyEntry::Cpu(_) => Ok(()),
                AnyEntry::Own(_) => Ok(()),
            },
            Place::Cpu(_) => Ok(()),
            Place::Actor(_) => Ok(()),
        }
    }

    /// The counts of all notes.
    fn total(self) -> Counts
        ensures { (s : Script) (made : List MadeNote) → HasCounted s self made → IsInOrder made →
            HaveLegalHistories (actors_of s) s (lists_by (actor_count s) made) → result ≡ counts_of s (lists_by (actor_count s) made) }
    {
        ended(self.counts)
    }
}

/// The counts of the notes of a type's script, while they are told. Our own decision.
#[derive(Drop)]
pub struct TallyOf<S: Subject> {
    tally: Tally,
    of: PhantomData<S>,
}

impl<S: Subject> TallyOf<S> {
    /// Before the first note. Fails for want of memory alone.
    pub fn new(alloc: Global, script: &Script) -> Result<TallyOf<S>, NoMemory>
        requires { script.now ≡ S.script }
        ensures { IfOk result (λ x. HasCounted S.script x.tally []) }
    {
        let tally = Tally::new(alloc, script)?;
        Ok(TallyOf {
            tally,
            of: PhantomData,
        })
    }

    /// The counts of the notes that were told, where each place's came in the order of their positions: of all notes, and
    /// of the accepted armings by what became of them. What is counted is our own decision. A count of 2^64 or more is
    /// NoMemory where its note is told.
    pub fn counts(self) -> Counts
        ensures { (made : List MadeNote) → HasCounted S.script self.tally made → IsInOrder made →
            HaveLegalHistories (actors_of S.script) S.script (lists_by (actor_count S.script) made) → result ≡ counts_of S.script (lists_by (actor_count S.script) made) }
    {
        self.tally.total()
    }
}

impl<S: Subject> Listener for TallyOf<S> {
    ghost use Rattle.co_program.specs.Actors.{actor_count};
    ghost use Rattle.co_gen.specs.Tally.{HasCounted};

    ghost actors = { λ x. actor_count S.script };

    ghost has = { λ x made. HasCounted S.script x.tally made };

    ghost room = { λ x. 0 };

    #[inline(always)]
    fn write(&mut self, actor: u32, note: &Note) -> Result<(), NoMemory> {
        self.tally.take(note)
    }
}
