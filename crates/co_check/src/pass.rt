//! A pass over the heads of the lines' notes, in order.
ghost use Rattle.std.specs.Prelude.{◌≡◌, ◌≢◌, [], ◌∷◌};
ghost use Rattle.co_object.specs.declared.note.Note.{Note};
ghost use Rattle.co_packed.specs.Heads.{head_of};

use co_packed::{Head, NotesAhead};

/// The head of the next note of a pass that is not over.
#[inline]
pub(crate) fn next_head(notes: &mut NotesAhead<'_>) -> Head
    requires { notes.old ≢ [] }
    ensures { (note : Note) × (notes.old ≡ note ∷ notes.new) × (result ≡ head_of note) }
{
    match notes.next_head() {
        Some(head) => head,
        None => unreachable!(),
    }
}
