//! A growing list of notes in few bytes.
ghost use Rattle.std.specs.Prelude.{◌≡◌, ◌+◌, ◌/◌, ◌<◌, ◌≤◌, [], ◌∷◌, ◌++◌, OnOk, OnErr, Some, length, slice_get};
ghost use Rattle.co_packed.specs.Numbered.{numbered_note};
ghost use Rattle.co_packed.specs.Rows.{row_in};
ghost use Rattle.co_packed.specs.Stored.{after_rows, marked, start_of, rest_at};

use crate::ahead::NotesAhead;
use crate::note_numbers::{note_of, numbers_of};
use crate::rows::{after_row, row_at, write_row};
use co_object::Note;
use co_sbt::{NoMemory, Seq};
use std::alloc::Global;
use std::marker::Model;

/// A growing list of notes. A usual note takes 20 to 26 bytes, where a [`PackedNote`](crate::PackedNote) has 88: its numbers
/// are there in as many bytes as they need.
///
/// A note takes as many bytes as it needs, so the list keeps where each second one starts, two bytes a note. A reader
/// goes on from there by the note's size.
///
/// Contracts see the notes.
#[derive(Drop)]
pub struct PackedNotes {
    bytes: Seq<u8>,
    starts: Seq<u32>,
    count: usize,
}

impl Model for PackedNotes {
    ghost use Rattle.std.specs.Prelude.{List, map};
    ghost use Rattle.co_object.specs.declared.note.Note.{Note};
    ghost use Rattle.co_packed.specs.Numbered.{numbered_note};
    ghost use Rattle.co_packed.specs.Stored.{rows_in, IsStored};

    ghost Value = { List Note };

    ghost view = { λ s. map numbered_note (rows_in s.count s.bytes) };

    ghost invariant = { λ s. IsStored s.bytes s.starts s.count };
}

/// More bytes than this no start is a number of.
const MOST_BYTES: usize = 0xffff_ffff;

/// Notes down that the next row starts at `end`, where it is a second one. After `NoMemory` the list is as before; it comes too
/// where the rows have 4 GiB, as no report's have.
#[tactic(auto, unfolding(crate::specs::Stored::marked))]
fn mark(starts: &mut Seq<u32>, count: usize, end: usize) -> Result<(), NoMemory>
    ensures ok { OnOk result (starts.new ≡ marked starts.old count end) }
    ensures err { OnErr result (starts.new ≡ starts.old) }
{
    if count / 2 < starts.as_slice().len() {
        return Ok(());
    }
    if end > MOST_BYTES {
        return Err(NoMemory {});
    }
    starts.push(end as u32)
}

/// The bytes after so many rows.
fn after_rows(bytes: &[u8], count: usize) -> &[u8]
    ensures { result.now ≡ after_rows count bytes.now }
{
    let mut rest = bytes;
    for _at in 0..count {
        rest = after_row(rest);
    }
    rest
}

/// One note more. There are fewer notes than bytes of them, so their number fits.
fn one_more(count: usize, end: usize) -> usize
    requires { count ≤ end / 8 }
    ensures { result ≡ count + 1 }
{
    count + 1
}

/// The bytes from the row at `at` on, by the start before it.
fn rest_at<'a>(bytes: &'a [u8], starts: &[u32], at: usize) -> &'a [u8]
    requires marked { at / 2 < length starts.now }
    requires within { start_of starts.now at ≤ length bytes.now }
    ensures { result.now ≡ rest_at bytes.now starts.now at }
{
    let start = starts[at / 2] as usize;
    after_rows(&bytes[start..], at % 2)
}

/// The note of the row that the bytes begin with.
fn note_in(bytes: &[u8]) -> Note
    ensures { result ≡ numbered_note (row_in bytes.now) }
{
    // The row is looked at where it was read: a copy would have to wait for it.
    let mut row = [0; 16];
    let _size = row_at(bytes, &mut row);
    note_of(&row)
}

impl PackedNotes {
    /// The empty list, which takes no memory.
    pub fn new(alloc: Global) -> PackedNotes
        ensures { result ≡ [] }
    {
        PackedNotes {
            bytes: Seq::new(alloc),
            starts: Seq::new(alloc),
            count: 0,
        }
    }

    /// Appends a note. After `NoMemory` the list is as before; it comes too where the rows have 4 GiB, as no report's have.
    pub fn push(&mut self, note: &Note) -> Result<(), NoMemory>
        ensures ok { OnOk result (self.new ≡ self.old ++ note.now ∷ []) }
        ensures err { OnErr result (self.new ≡ self.old) }
    {
        let end = self.bytes.as_slice().len();
        let count = one_more(self.count, end);
        let mut buffer = [0; 136];
        let size = write_row(&mut buffer, &numbers_of(note));
        mark(&mut self.starts, self.count, end)?;
        self.bytes.extend_from_slice(&buffer[..size])?;
        self.count = count;
        Ok(())
    }

    /// How many notes there are.
    pub fn len(&self) -> usize
        ensures { result ≡ length self.now }
    {
        self.count
    }

    /// The note at `at`, counted from 0.
    pub fn note(&self, at: usize) -> Note
        requires { at < length self.now }
        ensures { slice_get self.now at ≡ Some result }
    {
        let rest = rest_at(self.bytes.as_slice(), self.starts.as_slice(), at);
        note_in(rest)
    }
    /// All notes, in their order, to be taken one by one.
    pub fn ahead(&self) -> NotesAhead<'_>
        ensures { result ≡ self.now }
    {
        NotesAhead::new(self.bytes.as_slice(), self.count)
    }
}
