//! The note that a line shows.
ghost use Rattle.std.specs.Prelude.{◌≡◌, Some};
ghost use Rattle.co_text.specs.Fallible.{Gives};
ghost use Rattle.co_notes.specs.NoteValues.{HasFewActors, maker, maker_is};
ghost use Rattle.co_notes.specs.NoteForms.{journal_form, head_form, timer_form, wheel_form, own_form, note_form, shown_note, whole};
ghost use Rattle.co_notes.specs.Parts.{parts};

use crate::reading::names::Names;
use crate::reading::operations::operation;
use crate::reading::parts::Parts;
use crate::reading::queue::{answer, may_answer, queue_op};
use crate::reading::replies::reply;
use crate::reading::values::{Maker, first_number64, literal, made_by, made_by_actor, own_kind};
use co_object::{AnyEntry, Entry, Note, OwnEntry, OwnKind, Place, QEntry, QOp, QReply, Reply};
use co_text::Cause;

/// What a note line says.
#[derive(Clone, Copy)]
pub struct NumberedEntry {
    /// The note's number in its actor's list, from 0.
    pub number: u64,
    /// Its entry.
    pub entry: AnyEntry,
}

/// An operation on a timer queue, `=` and its answer; `Form` where that is an answer of another operation.
fn journal(names: &Names, parts: &mut Parts) -> Result<(QOp, QReply), Cause>
    ensures { Gives (λ x. (x, parts.new)) result (journal_form names.now parts.old) }
{
    let op = queue_op(names, parts)?;
    literal(b"=".as_slice(), parts)?;
    let reply = answer(names, parts)?;
    if may_answer(&op, &reply) {
        Ok((op, reply))
    } else {
        Err(Cause::Form)
    }
}

/// The number of the note that a line shows, who made it, and the parts behind.
#[inline(always)]
fn head<'a>(names: &Names, line: &'a [u8]) -> Result<((u64, Maker), Parts<'a>), Cause>
    requires { HasFewActors names.now }
    ensures { Gives (λ x. x) result (head_form (maker names.now) (parts line.now)) }
{
    let (number, mut parts) = first_number64(line)?;
    let maker = made_by(names, &mut parts)?;
    Ok(((number, maker), parts))
}

/// The number of the note that a line shows, who made it, which is this actor, and the parts behind: `Form` where it is another.
fn own_head<'a>(
    names: &Names,
    actor: u32,
    line: &'a [u8],
) -> Result<((u64, Maker), Parts<'a>), Cause>
    requires { HasFewActors names.now }
    ensures { Gives (λ x. x) result (head_form (maker_is names.now actor) (parts line.now)) }
{
    let (number, mut parts) = first_number64(line)?;
    let maker = made_by_actor(names, actor, &mut parts)?;
    Ok(((number, maker), parts))
}

/// Reads a note of a callout. The entry is written where it is wanted, since it is too large to be handed on.
#[inline(always)]
fn timer_note(names: &Names, line: &[u8], note: &mut Note) -> Result<(), Cause>
    requires { HasFewActors names.now }
    ensures shown { Gives (λ _. record { number = note.new.pos; entry = note.new.entry }) result (whole (timer_form names.now) (parts line.now)) }
    ensures place { note.new.place ≡ note.old.place }
{
    let ((number, maker), mut parts) = head(names, line)?;
    let op = operation(names, &mut parts)?;
    literal(b"=".as_slice(), &mut parts)?;
    note.pos = number;
    note.entry = AnyEntry::Timer(Entry {
        actor: maker.actor,
        act: maker.act,
        op,
        reply: Reply::Done,
    });
    if let AnyEntry::Timer(entry) = &mut note.entry {
        reply(names, &mut parts, &mut entry.reply)?;
    }
    parts.end()
}

/// Reads a note of a CPU's queue.
#[inline(always)]
fn wheel_note(names: &Names, line: &[u8], note: &mut Note) -> Result<(), Cause>
    requires { HasFewActors names.now }
    ensures shown { Gives (λ _. record { number = note.new.pos; entry = note.new.entry }) result (whole (wheel_form names.now) (parts line.now)) }
    ensures place { note.new.place ≡ note.old.place }
{
    let ((number, maker), mut parts) = head(names, line)?;
    let (op, reply) = journal(names, &mut parts)?;
    parts.end()?;
    note.pos = number;
    note.entry = AnyEntry::Cpu(QEntry {
        actor: maker.actor,
        act: maker.act,
        op,
        reply,
    });
    Ok(())
}

/// Reads an actor's own note.
fn own_note(names: &Names, actor: u32, line: &[u8], note: &mut Note) -> Result<(), Cause>
    requires { HasFewActors names.now }
    ensures shown { Gives (λ _. record { number = note.new.pos; entry = note.new.entry }) result (whole (own_form names.now actor) (parts line.now)) }
    ensures place { note.new.place ≡ note.old.place }
{
    let ((number, maker), mut parts) = own_head(names, actor, line)?;
    let kind = own_kind(&mut parts)?;
    parts.end()?;
    note.pos = number;
    note.entry = AnyEntry::Own(OwnEntry {
        actor: maker.actor,
        act: maker.act,
        kind,
    });
    Ok(())
}

/// Reads a note of its place.
#[inline(always)]
fn placed_note(names: &Names, line: &[u8], note: &mut Note) -> Result<(), Cause>
    requires { HasFewActors names.now }
    ensures shown { Gives (λ _. record { number = note.new.pos; entry = note.new.entry }) result (whole (note_form names.now note.old.place) (parts line.now)) }
    ensures place { note.new.place ≡ note.old.place }
{
    match note.place {
        Place::Timer(_) => timer_note(names, line, note),
        Place::Cpu(_) => wheel_note(names, line, note),
        Place::Actor(actor) => own_note(names, actor, line, note),
    }
}

/// A note of a place, before it is read.
#[inline(always)]
pub fn unread(place: Place) -> Note
    ensures { result.place ≡ place }
{
    Note {
        place,
        pos: 0,
        entry: AnyEntry::Own(OwnEntry {
            actor: 0,
            act: 0,
            kind: OwnKind::NotHeld,
        }),
    }
}

/// Reads the note of its place that a line shows; `Note` where it shows none.
#[inline(always)]
pub fn read_note(names: &Names, line: &[u8], note: &mut Note) -> Result<(), Cause>
    requires { HasFewActors names.now }
    ensures shown { Gives (λ _. record { number = note.new.pos; entry = note.new.entry }) result (shown_note names.now (Some note.old.place) line.now) }
    ensures place { note.new.place ≡ note.old.place }
{
    match placed_note(names, line, note) {
        Ok(()) => Ok(()),
        Err(_) => Err(Cause::Note),
    }
}

/// The note that a line shows, where a place is open; else `Note`.
pub fn note_of(names: &Names, place: Option<Place>, line: &[u8]) -> Result<NumberedEntry, Cause>
    requires { HasFewActors names.now }
    ensures { Gives (λ x. x) result (shown_note names.now place line.now) }
{
    let Some(place) = place else {
        return Err(Cause::Note);
    };
    let mut note = unread(place);
    read_note(names, line, &mut note)?;
    Ok(NumberedEntry {
        number: note.pos,
        entry: note.entry,
    })
}
