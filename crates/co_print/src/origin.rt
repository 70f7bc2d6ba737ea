//! Notes, by where they stand in the lists of the actors.
ghost use Rattle.std.specs.Prelude.{◌≡◌, ◌++◌, length, map, Some, None, OnOk, MatchOption};
ghost use Rattle.co_text.specs.Lines.{text};
ghost use Rattle.co_print.specs.Origins.{note_from, origin_line, lines_from};

use co_notes::print_packed;
use co_object::Note;
use co_packed::PackedNote;
use co_program::Script;
use co_sbt::{NoMemory, Seq};
use co_text::Page;

/// How many notes are copied from their lists before the first of them is printed. In a large run hardly any is in a cache,
/// and to unpack one takes so many instructions that the processor does not come to the next one meanwhile: copied together,
/// their ways from memory overlap.
const CHUNK: usize = 16;

/// Where a note stands: its actor, and its number in the actor's list.
#[derive(Clone, Copy, Debug, PartialEq, Eq)]
pub struct Origin {
    /// The actor's number.
    pub actor: u32,
    /// The note's number in the actor's list, from 0.
    pub number: u32,
}

/// The packed note from an origin; None where none stands there.
fn packed_from(lists: &[Seq<PackedNote>], origin: Origin) -> Option<&PackedNote>
    ensures { MatchOption result (note_from lists.now origin ≡ None) (λ note. note_from lists.now origin ≡ Some note.now) }
{
    let notes = lists.get(origin.actor as usize)?;
    notes.as_slice().get(origin.number as usize)
}

/// The note from an origin; None where none stands there.
pub fn note_from(lists: &[Seq<Note>], origin: Origin) -> Option<&Note>
    ensures { MatchOption result (note_from lists.now origin ≡ None) (λ note. note_from lists.now origin ≡ Some note.now) }
{
    let notes = lists.get(origin.actor as usize)?;
    notes.as_slice().get(origin.number as usize)
}

/// A copy of the packed note from an origin; None where none stands there.
fn copy_from(lists: &[Seq<PackedNote>], origin: Origin) -> Option<PackedNote>
    ensures { result ≡ note_from lists.now origin }
{
    let packed = packed_from(lists, origin)?;
    Some(packed.copy())
}

/// Copies the packed notes from some origins out of their lists.
fn copy_notes(lists: &[Seq<PackedNote>], origins: &[Origin], copies: &mut [Option<PackedNote>])
    requires { length copies.old ≡ length origins.now }
    ensures { copies.new ≡ map (note_from lists.now) origins.now }
{
    for index in 0..origins.len() {
        copies[index] = copy_from(lists, origins[index]);
    }
}

/// The line of the note with this number in its actor's list; none where there is no note.
#[tactic(auto, using(co_text::proofs::Spacing::text_one))]
fn print_copy(
    page: &mut Page,
    script: &Script,
    number: u32,
    copy: &Option<PackedNote>,
) -> Result<(), NoMemory>
    ensures { OnOk result (page.new ≡ page.old ++ text (origin_line script.now number copy.now)) }
{
    match copy {
        Some(packed) => print_packed(page, script, u64::from(number), packed),
        None => Ok(()),
    }
}

/// The lines of the notes from some origins, whose packed notes are all copied first.
fn print_chunk(
    page: &mut Page,
    script: &Script,
    lists: &[Seq<PackedNote>],
    origins: &[Origin],
    copies: &mut [Option<PackedNote>],
) -> Result<(), NoMemory>
    requires { length copies.old ≡ length origins.now }
    ensures { OnOk result (page.new ≡ page.old ++ text (lines_from script.now lists.now origins.now)) }
{
    copy_notes(lists, origins, copies);
    for index in 0..origins.len() {
        print_copy(page, script, origins[index].number, &copies[index])?;
    }
    Ok(())
}

/// Room for a chunk of copies.
fn no_copies() -> [Option<PackedNote>; CHUNK] {
    [
        None, None, None, None, None, None, None, None, None, None, None, None, None, None, None,
        None,
    ]
}

/// The lines of the notes from some origins. `NoMemory` where the page finds no room.
pub fn print_from(
    page: &mut Page,
    script: &Script,
    lists: &[Seq<PackedNote>],
    origins: &[Origin],
) -> Result<(), NoMemory>
    ensures { OnOk result (page.new ≡ page.old ++ text (lines_from script.now lists.now origins.now)) }
{
    let mut copies = no_copies();
    for chunk in origins.chunks(CHUNK) {
        print_chunk(page, script, lists, chunk, &mut copies[..chunk.len()])?;
    }
    Ok(())
}
