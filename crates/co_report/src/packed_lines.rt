//! Note lines in few bytes.
ghost use Rattle.std.specs.Prelude.{nat_le, if◌then◌else◌, ◌≡◌, ℕ, ◌<◌, ◌++◌, ◌∷◌, [], Some, length, map, slice_get, OnOk};
ghost use Rattle.co_report.specs.declared.line.Line.{Line};
ghost use Rattle.co_report.specs.PackedLines.{is_next_of, line_of, no_stretch, note_from_line, line_in, stretch_at};

use crate::line::Line;
use crate::listening::LineListener;
use co_object::Note;
use co_packed::{NotesAhead, PackedNotes};
use co_sbt::{NoMemory, Seq};
use std::alloc::Global;
use std::marker::Model;

/// Lines that follow each other in a report, as those of one place do.
#[derive(Clone, Copy)]
pub(crate) struct Stretch {
    /// The index of the first of them among all note lines.
    at: u64,
    /// Its number in the report.
    line: u64,
}

/// The note lines of a report, in few bytes: about as many as their notes take, and 16 for each place.
///
/// Contracts see the list of the lines. Our own decision.
#[derive(Drop)]
pub struct PackedLines {
    /// What the lines say.
    notes: PackedNotes,
    /// Where the numbers of lines follow each other, but for the last of these stretches.
    earlier: Seq<Stretch>,
    /// The last one.
    latest: Stretch,
}

impl Model for PackedLines {
    ghost use Rattle.std.specs.Prelude.{List, [], ◌∷◌, ◌++◌};
    ghost use Rattle.co_report.specs.declared.line.Line.{Line};
    ghost use Rattle.co_report.specs.PackedLines.{lines_from};

    ghost Value = { List Line };

    ghost view = { λ x. lines_from (x.earlier ++ x.latest ∷ []) 0 x.notes };
}

/// The number of the line at this index, where it is of this stretch.
fn number_in(stretch: Stretch, at: u64) -> u64
    ensures { result ≡ line_in stretch at }
{
    stretch.line.saturating_add(at.saturating_sub(stretch.at))
}

/// Whether the stretch goes on with the note at this index, whose line has this number.
fn is_next_of(stretch: Stretch, at: u64, line: u64) -> bool
    ensures { result ≡ is_next_of stretch at line }
{
    stretch.at <= at && number_in(stretch, at) == line
}

/// The last of these stretches that does not begin behind this index.
fn stretch_at(stretches: &[Stretch], at: u64) -> Stretch
    ensures { result ≡ stretch_at no_stretch stretches.now at }
{
    let mut found = Stretch { at: 0, line: 0 };
    for stretch in stretches {
        found = later(found, *stretch, at);
    }
    found
}

/// The second stretch, unless it begins behind this index; then the first.
fn later(first: Stretch, second: Stretch, at: u64) -> Stretch
    ensures { result ≡ (if nat_le second.at at then second else first) }
{
    if second.at <= at { second } else { first }
}

impl PackedLines {
    /// No lines.
    pub fn new(alloc: Global) -> PackedLines
        ensures { result ≡ [] }
    {
        PackedLines {
            notes: PackedNotes::new(alloc),
            earlier: Seq::new(alloc),
            latest: Stretch { at: 0, line: 0 },
        }
    }

    /// Appends the line of this number, which shows this note. What the list has after `NoMemory` is not told.
    pub fn push(&mut self, line: u64, note: &Note) -> Result<(), NoMemory>
        ensures { OnOk result (self.new ≡ self.old ++ line_of line note.now ∷ []) }
    {
        let at = self.notes.len() as u64;
        if is_next_of(self.latest, at, line) {
            return self.notes.push(note);
        }
        self.earlier.push(self.latest)?;
        self.latest = Stretch { at, line };
        self.notes.push(note)
    }

    /// The number of lines.
    pub fn len(&self) -> usize
        ensures { result ≡ length self.now }
    {
        self.notes.len()
    }

    /// What the line at this index says, from 0: its place, its note's number as the position, and its entry.
    pub fn note(&self, at: usize) -> Note
        requires { at < length self.now }
        ensures { (line : ℕ) × (slice_get self.now at ≡ Some (line_of line result)) }
    {
        self.notes.note(at)
    }

    /// What the lines say, in their order, to be taken one by one: a pass over all of them reads each straight behind the last
    /// one. A note's position is its number.
    pub fn notes(&self) -> NotesAhead<'_>
        ensures { result ≡ map note_from_line self.now }
    {
        self.notes.ahead()
    }

    /// The number of the line at this index in the report. It takes a look at each place up to its own.
    pub fn number(&self, at: usize) -> u64
        requires { at < length self.now }
        ensures { (line : Line) → slice_get self.now at ≡ Some line → result ≡ line.line }
    {
        let at = at as u64;
        if self.latest.at <= at {
            return number_in(self.latest, at);
        }
        number_in(stretch_at(self.earlier.as_slice(), at), at)
    }

    /// The line at this index.
    pub fn line(&self, at: usize) -> Line
        requires { at < length self.now }
        ensures { slice_get self.now at ≡ Some result }
    {
        let note = self.note(at);
        Line {
            line: self.number(at),
            place: note.place,
            number: note.pos,
            entry: note.entry,
        }
    }
}

impl LineListener for PackedLines {
    ghost use Rattle.std.specs.Prelude.{◌≡◌};

    ghost has = { λ packed lines. packed ≡ lines };

    fn take(&mut self, line: u64, note: &Note) -> Result<(), NoMemory> {
        self.push(line, note)
    }
}
