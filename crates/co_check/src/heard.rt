//! The note lines of a report as they are read: packed, and replayed, each in the history of its place.
ghost use Rattle.std.specs.Prelude.{◌≡◌, ◌++◌, ◌∷◌, [], None, List, Decides, OnOk, IfOk};
ghost use Rattle.co_program.specs.declared.script.Script.{Script as Scripts};
ghost use Rattle.co_program.specs.Scripts.{IsScript};
ghost use Rattle.co_report.specs.declared.line.Line.{Line};
ghost use Rattle.co_report.specs.PackedLines.{line_of};
ghost use Rattle.co_check.specs.Hearing.{ComesTo, IsHeard, IsSoFar};
ghost use Rattle.co_check.specs.Lines.{IsLineOf, IsOfKind, NamesExist};

use crate::fact::PackedFact;
use crate::replaying::Replaying;
use crate::verdict::Unfit;
use co_object::{AnyEntry, Note, Place, QOp};
use co_program::{Script, actor_count, place_exists};
use co_report::{LineListener, PackedLines, Subject};
use co_sbt::NoMemory;
use std::alloc::Global;
use std::marker::PhantomData;

/// More lines than this no report has.
const LINES_MAX: usize = 268_435_456;

/// A line of which something is wrong.
#[derive(Clone, Copy)]
pub(crate) struct BadLine {
    line: u64,
    cause: Unfit,
}

/// What the lines of a report come to.
#[derive(Drop)]
pub(crate) enum Replayed {
    /// Each is possible where it stands.
    Fits {
        /// What is said of each of them.
        facts: Vec<PackedFact>,
        /// By actor: how many of them it made.
        counts: Vec<u32>,
    },
    /// The first that is not.
    Bad {
        line: u64,
        cause: Unfit,
    },
}

/// The note lines of a report so far, packed, and replayed up to the first that is not possible where it stands.
#[derive(Drop)]
pub(crate) struct Heard<'a> {
    script: &'a Script,
    lines: PackedLines,
    replaying: Replaying,
    bad: Option<BadLine>,
}

/// Whether the entry is of the kind of its place.
fn is_of_kind(place: Place, entry: &AnyEntry) -> bool
    ensures { Decides result (IsOfKind place entry.now) }
{
    match entry {
        AnyEntry::Timer(_) => match place {
            Place::Timer(_) => true,
            Place::Cpu(_) => false,
            Place::Actor(_) => false,
        },
        AnyEntry::Cpu(_) => match place {
            Place::Timer(_) => false,
            Place::Cpu(_) => true,
            Place::Actor(_) => false,
        },
        AnyEntry::Own(_) => match place {
            Place::Timer(_) => false,
            Place::Cpu(_) => false,
            Place::Actor(_) => true,
        },
    }
}

/// Whether the callout that an insert names exists.
fn names_exist(script: &Script, entry: &AnyEntry) -> bool
    ensures { Decides result (NamesExist script.now entry.now) }
{
    match entry {
        AnyEntry::Cpu(entry) => match entry.op {
            QOp::Insert { i, .. } => (i as usize) < script.timers.as_slice().len(),
            QOp::Remove { .. } => true,
            QOp::Scan { .. } => true,
            QOp::Pop => true,
            QOp::Free => true,
            QOp::PopDirect => true,
            QOp::FreeDirect => true,
        },
        AnyEntry::Timer(_) => true,
        AnyEntry::Own(_) => true,
    }
}

/// Whether the line is one of the script.
fn is_line_of(script: &Script, line: u64, note: &Note) -> bool
    requires { IsScript script.now }
    ensures { Decides result (IsLineOf script.now (line_of line note.now)) }
{
    place_exists(script, note.place)
        && is_of_kind(note.place, &note.entry)
        && note.entry.actor() < actor_count(script)
        && names_exist(script, &note.entry)
}

impl<'a> Heard<'a> {
    /// Before the first line.
    pub(crate) fn open(alloc: Global, script: &'a Script) -> Result<Heard<'a>, NoMemory>
        requires { IsScript script.now }
        ensures { IfOk result (IsHeard script.now []) }
    {
        let replaying = Replaying::open(alloc, script)?;
        Ok(Heard {
            script,
            lines: PackedLines::new(alloc),
            replaying,
            bad: None,
        })
    }

    /// Replays the next line, where none was bad before. The answer is what is wrong with it, if something is.
    fn replay_next(&mut self, line: u64, note: &Note) -> Result<Option<BadLine>, NoMemory>
        requires heard { (s : Scripts) × (lines : List Line) × IsHeard s lines self.old }
        requires fits { self.old.bad ≡ None }
        ensures script { self.new.script ≡ self.old.script }
        ensures lines { self.new.lines ≡ self.old.lines }
        ensures bad { self.new.bad ≡ self.old.bad }
        ensures replayed { IfOk result (λ bad. (s : Scripts) (lines : List Line) → IsHeard s lines self.old → IsSoFar s (lines ++ line_of line note.now ∷ []) self.new.replaying bad) }
    {
        // A reader tells such lines alone, which no contract of a listener asks of it.
        if LINES_MAX <= self.lines.len() || !is_line_of(self.script, line, note) {
            return Ok(Some(BadLine {
                line,
                cause: Unfit::Illegal,
            }));
        }
        match self.replaying.take(self.script, line, note)? {
            Some(cause) => Ok(Some(BadLine { line, cause })),
            None => Ok(None),
        }
    }

    /// Replays the next line, unless one was bad before.
    fn replay(&mut self, line: u64, note: &Note) -> Result<(), NoMemory>
        requires { (s : Scripts) × (lines : List Line) × IsHeard s lines self.old }
        ensures script { OnOk result (self.new.script ≡ self.old.script) }
        ensures lines { OnOk result (self.new.lines ≡ self.old.lines) }
        ensures replayed { OnOk result ((s : Scripts) (lines : List Line) → IsHeard s lines self.old → IsSoFar s (lines ++ line_of line note.now ∷ []) self.new.replaying self.new.bad) }
    {
        match self.bad {
            Some(_) => Ok(()),
            None => {
                // Kept as it is after a good line, since it would be copied.
                if let Some(bad) = self.replay_next(line, note)? {
                    self.bad = Some(bad);
                }
                Ok(())
            }
        }
    }

    /// Takes the next line.
    pub(crate) fn take(&mut self, line: u64, note: &Note) -> Result<(), NoMemory>
        requires { (s : Scripts) × (lines : List Line) × IsHeard s lines self.old }
        ensures { OnOk result ((s : Scripts) (lines : List Line) → IsHeard s lines self.old → IsHeard s (lines ++ line_of line note.now ∷ []) self.new) }
    {
        self.replay(line, note)?;
        self.lines.push(line, note)
    }

    /// The lines, and what they come to.
    pub(crate) fn ended(self) -> (PackedLines, Replayed)
        ensures { (s : Scripts) (lines : List Line) → IsHeard s lines self.entry → (result.0 ≡ lines) × ComesTo s lines result.1 }
    {
        let Heard {
            lines,
            replaying,
            bad,
            ..
        } = self;
        match bad {
            Some(BadLine { line, cause }) => (lines, Replayed::Bad { line, cause }),
            None => {
                let Replaying { facts, counts, .. } = replaying;
                let facts = facts.into_vec();
                (lines, Replayed::Fits { facts, counts })
            }
        }
    }
}

/// The note lines of a report of a type's script: whoever tells lines to a listener knows the listener by its type alone.
#[derive(Drop)]
pub(crate) struct HeardOf<'a, S: Subject> {
    pub(crate) heard: Heard<'a>,
    of: PhantomData<S>,
}

impl<'a, S: Subject> HeardOf<'a, S> {
    /// Before the first line.
    pub(crate) fn open(alloc: Global, script: &'a Script) -> Result<HeardOf<'a, S>, NoMemory>
        requires accepted { IsScript script.now }
        requires subject { script.now ≡ S.script }
        ensures { IfOk result (λ x. IsHeard S.script [] x.heard) }
    {
        let heard = Heard::open(alloc, script)?;
        Ok(HeardOf {
            heard,
            of: PhantomData,
        })
    }
}

impl<'a, S: Subject> LineListener for HeardOf<'a, S> {
    ghost use Rattle.co_check.specs.Hearing.{IsHeard};

    ghost has = { λ x lines. IsHeard S.script lines x.heard };

    fn take(&mut self, line: u64, note: &Note) -> Result<(), NoMemory> {
        self.heard.take(line, note)
    }
}
