//! A pass over a packed list, in order.
ghost use Rattle.std.specs.Prelude.{◌≡◌, [], ◌∷◌, map, MatchOption};
ghost use Rattle.co_object.specs.declared.note.Note.{Note};
ghost use Rattle.co_packed.specs.Heads.{head_of};
ghost use Rattle.co_packed.specs.Numbered.{numbered_note};
ghost use Rattle.co_packed.specs.Stored.{rows_in};

use crate::heads::Head;
use crate::note_numbers::{head_of, note_of};
use crate::rows::{front_at, rest_from, row_at};
use co_object::Note;
use std::marker::Model;

/// The notes of a packed list that are still to come, which a pass over all of them takes one by one. Each is read straight
/// from where the last one ended.
///
/// Contracts see the notes.
#[derive(Drop)]
pub struct NotesAhead<'a> {
    rest: &'a [u8],
    left: usize,
}

impl<'a> Model for NotesAhead<'a> {
    ghost use Rattle.std.specs.Prelude.{List, map};
    ghost use Rattle.co_object.specs.declared.note.Note.{Note};
    ghost use Rattle.co_packed.specs.Numbered.{numbered_note};
    ghost use Rattle.co_packed.specs.Stored.{rows_in};

    ghost Value = { List Note };

    ghost view = { λ s. map numbered_note (rows_in s.left s.rest.now) };
}

impl<'a> NotesAhead<'a> {
    /// The notes of so many rows, which the bytes begin with.
    pub(crate) fn new(rest: &'a [u8], left: usize) -> NotesAhead<'a>
        ensures { result ≡ map numbered_note (rows_in left rest.now) }
    {
        NotesAhead { rest, left }
    }

    /// The next note, or None where none is left.
    #[inline]
    pub fn next(&mut self) -> Option<Note>
        ensures { MatchOption result ((self.old ≡ []) × (self.new ≡ [])) (λ note. self.old ≡ note ∷ self.new) }
    {
        if self.left == 0 {
            return None;
        }
        let mut row = [0; 16];
        let size = row_at(self.rest, &mut row);
        self.rest = rest_from(self.rest, size);
        self.left -= 1;
        Some(note_of(&row))
    }

    /// The head of the next note, or None where none is left. The rest of the note is not read.
    #[inline]
    pub fn next_head(&mut self) -> Option<Head>
        ensures { MatchOption result ((self.old ≡ []) × (self.new ≡ [])) (λ head. (note : Note) × (self.old ≡ note ∷ self.new) × (head ≡ head_of note)) }
    {
        if self.left == 0 {
            return None;
        }
        let (front, size) = front_at(self.rest);
        self.rest = rest_from(self.rest, size);
        self.left -= 1;
        Some(head_of(&front))
    }
}
