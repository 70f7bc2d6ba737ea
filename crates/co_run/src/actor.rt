//! One actor of a run.
ghost use Rattle.std.specs.Prelude.{◌≡◌, ◌≤◌, ◌+◌, ◌++◌, ◌∷◌, [], ℕ, Some, ◌||◌, is_some, length};
ghost use Rattle.co_program.specs.Advance.{advance};
ghost use Rattle.co_program.specs.Indexed.{cursor_of};
ghost use Rattle.co_program.specs.Scripts.{IsScript};
ghost use Rattle.co_desk.specs.Call.{notes_with, notes_in};
ghost use Rattle.co_run.specs.Counted.{CanTell, HasTold};
ghost use Rattle.co_run.specs.Noted.{gone_on, gone_on_with};

use crate::book::Book;
use co_lock::Hold;
use co_object::Note;
use co_program::{Cursor, Script, advance};
use co_service::Passes;

/// An actor: its place in its program, what it has seen of the service, what it holds and what it has noted.
#[derive(Drop)]
pub struct Actor<'a, B: Book> {
    /// Its number: clients first, then CPUs, then in version 2 interrupts.
    pub number: u32,
    /// What it has seen of each callout and of each CPU.
    pub passes: Passes,
    /// Its place in its program.
    pub cursor: Cursor,
    /// The client lock that it holds, if any.
    pub hold: Option<Hold<'a>>,
    /// Its notes, in the order in which it made them.
    pub book: B,
    /// How many notes of its own it has made.
    pub own: u64,
}

/// Notes into the room of the book.
fn put<B: Book>(book: &mut B, note: &Note)
    requires { 1 ≤ B.spare book.old }
    ensures notes { B.notes book.new ≡ B.notes book.old ++ note.now ∷ [] }
    ensures spare { B.spare book.new + 1 ≡ B.spare book.old }
{
    book.push(note);
}

/// There is at least one of the two.
fn either(note: &Option<Note>, other: &Option<Note>) -> bool
    ensures { result ≡ (is_some note.now || is_some other.now) }
{
    note.is_some() || other.is_some()
}

/// What [`tell`] does, inlined: for the one note that each call makes.
#[inline(always)]
pub(crate) fn tell_here<B: Book>(
    script: &Script,
    cursor: &mut Cursor,
    book: &mut B,
    note: &Note,
    more: bool,
)
    requires script { IsScript script.now }
    requires can { CanTell B.notes B.spare cursor.old book.old 1 }
    ensures cursor { (actor : ℕ) → cursor_of script.now actor cursor.new ≡ advance script.now (cursor_of script.now actor cursor.old) more note.now.place note.now.entry }
    ensures told { HasTold B.notes B.spare cursor.new book.old book.new (note.now ∷ []) }
{
    let _task = cursor.task;
    put(book, note);
    advance(script, cursor, more, note.place, &note.entry);
    let _after = cursor.task;
}

/// Notes down one note of a section, and goes on in the program. `more` is whether another note of the section follows.
#[inline(never)]
pub(crate) fn tell<B: Book>(
    script: &Script,
    cursor: &mut Cursor,
    book: &mut B,
    note: &Note,
    more: bool,
)
    requires script { IsScript script.now }
    requires can { CanTell B.notes B.spare cursor.old book.old 1 }
    ensures cursor { (actor : ℕ) → cursor_of script.now actor cursor.new ≡ advance script.now (cursor_of script.now actor cursor.old) more note.now.place note.now.entry }
    ensures told { HasTold B.notes B.spare cursor.new book.old book.new (note.now ∷ []) }
{
    tell_here(script, cursor, book, note, more);
}

/// Notes down one note of a section, if there is one.
pub(crate) fn tell_some<B: Book>(
    script: &Script,
    cursor: &mut Cursor,
    book: &mut B,
    note: &Option<Note>,
    more: bool,
)
    requires script { IsScript script.now }
    requires can { CanTell B.notes B.spare cursor.old book.old 1 }
    ensures cursor { (actor : ℕ) → cursor_of script.now actor cursor.new ≡ gone_on_with script.now (cursor_of script.now actor cursor.old) more note.now }
    ensures told { HasTold B.notes B.spare cursor.new book.old book.new (notes_with note.now) }
{
    if let Some(note) = note {
        tell(script, cursor, book, note, more);
    }
}

/// Notes down the notes of a section, and goes on in the program.
pub(crate) fn tell_all<B: Book>(
    script: &Script,
    cursor: &mut Cursor,
    book: &mut B,
    notes: &[Option<Note>; 3],
)
    requires script { IsScript script.now }
    requires can { CanTell B.notes B.spare cursor.old book.old 3 }
    ensures cursor { (actor : ℕ) → cursor_of script.now actor cursor.new ≡ gone_on script.now (cursor_of script.now actor cursor.old) (notes_in notes.now) }
    ensures told { HasTold B.notes B.spare cursor.new book.old book.new (notes_in notes.now) }
    ensures few { length (notes_in notes.now) ≤ 3 }
{
    let [first, second, third] = notes;
    tell_some(script, cursor, book, first, either(second, third));
    tell_some(script, cursor, book, second, third.is_some());
    tell_some(script, cursor, book, third, false);
}
