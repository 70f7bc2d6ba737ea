//! What its type says of the values of a note: numbers, times and codes are in range. Contracts know the range of a value
//! that the code has read.
ghost use Rattle.co_report.specs.Typed.{EntryTyped};

use co_object::Note;

/// The values of the note are in the ranges of their types.
pub(crate) fn note_is_typed(note: Note)
    ensures { EntryTyped note.entry }
{}
