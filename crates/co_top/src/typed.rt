//! What their types say of the values of notes: numbers, times and codes are in range. Nothing here does anything when it
//! runs, so that the loops fall away.
ghost use Rattle.co_report.specs.Typed.{ListsTyped, NotesTyped};

use co_packed::PackedNote;
use co_sbt::Seq;

/// The values of all notes of an actor are in the ranges of their types.
fn notes_are_typed(notes: &[PackedNote])
    ensures { NotesTyped notes.now }
{
    for note in notes {
        note.is_typed();
    }
}

/// The values of all actors' notes are in the ranges of their types.
pub(crate) fn lists_are_typed(lists: &[Seq<PackedNote>])
    ensures { ListsTyped lists.now }
{
    for notes in lists {
        notes_are_typed(notes.as_slice());
    }
}
