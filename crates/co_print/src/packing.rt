//! Lists of notes in few bytes.
ghost use Rattle.std.specs.Prelude.{◌≡◌, IfOk};

use co_object::Note;
use co_packed::PackedNote;
use co_sbt::{NoMemory, Seq};
use std::alloc::Global;

/// The notes of one actor, packed.
fn packed_list(alloc: Global, notes: &[Note]) -> Result<Seq<PackedNote>, NoMemory>
    ensures { IfOk result (λ packed. packed ≡ notes.now) }
{
    let mut packed = Seq::new(alloc);
    for note in notes {
        packed.push(PackedNote::of(note))?;
    }
    Ok(packed)
}

/// The notes of all actors, packed.
pub(crate) fn packed_lists(
    alloc: Global,
    lists: &[Seq<Note>],
) -> Result<Seq<Seq<PackedNote>>, NoMemory>
    ensures { IfOk result (λ packed. packed ≡ lists.now) }
{
    let mut packed = Seq::new(alloc);
    for notes in lists {
        packed.push(packed_list(alloc, notes.as_slice())?)?;
    }
    Ok(packed)
}
