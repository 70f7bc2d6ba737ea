//! Notes as lines.
ghost use Rattle.std.specs.Prelude.{◌≡◌, ◌++◌, ◌∷◌, [], codes, decimal, OnOk};
ghost use Rattle.co_text.specs.Lines.{line_text, spaced};
ghost use Rattle.co_notes.specs.NoteTexts.{op_words, reply_words, queue_words, answer_words, own_words, with_answer, any_op_words, any_reply_words, entry_words, note_words};

mod call;
mod queue;
mod reply;
mod words;

use call::print_op;
use co_object::{AnyEntry, Op, OwnKind, QOp, QReply, Reply};
use co_packed::{AnyOp, AnyReply, PackedNote};
use co_program::Script;
use co_sbt::NoMemory;
use co_script::actor_name;
use co_text::Page;
use queue::{print_answer, print_queue_op};
use reply::print_reply;

fn print_equals(page: &mut Page) -> Result<(), NoMemory>
    ensures { OnOk result (page.new ≡ page.old ++ spaced (codes "=" ∷ [])) }
{
    page.text(b" =".as_slice())
}

fn print_call_entry(page: &mut Page, op: &Op, reply: &Reply) -> Result<(), NoMemory>
    ensures { OnOk result (page.new ≡ page.old ++ spaced (with_answer (op_words op.now) (reply_words reply.now))) }
{
    print_call_op(page, op)?;
    print_reply(page, reply)
}

fn print_queue_entry(page: &mut Page, op: &QOp, reply: &QReply) -> Result<(), NoMemory>
    ensures { OnOk result (page.new ≡ page.old ++ spaced (with_answer (queue_words op.now) (answer_words reply.now))) }
{
    print_asked_op(page, op)?;
    print_answer(page, reply)
}

#[inline(always)]
fn print_own_entry(page: &mut Page, kind: OwnKind) -> Result<(), NoMemory>
    ensures { OnOk result (page.new ≡ page.old ++ spaced (own_words kind)) }
{
    match kind {
        OwnKind::NotHeld => page.text(b" notheld".as_slice()),
        OwnKind::HoldsLock => page.text(b" holdslock".as_slice()),
        OwnKind::Holding => page.text(b" holding".as_slice()),
        OwnKind::NotHolding => page.text(b" notholding".as_slice()),
    }
}

fn print_entry(page: &mut Page, entry: &AnyEntry) -> Result<(), NoMemory>
    ensures { OnOk result (page.new ≡ page.old ++ spaced (entry_words entry.now)) }
{
    match entry {
        AnyEntry::Timer(entry) => print_call_entry(page, &entry.op, &entry.reply),
        AnyEntry::Cpu(entry) => print_queue_entry(page, &entry.op, &entry.reply),
        AnyEntry::Own(entry) => print_own_entry(page, entry.kind),
    }
}

/// A space, an actor's letter and its number.
#[inline(always)]
fn print_maker(page: &mut Page, letter: u8, name: u64) -> Result<(), NoMemory>
    ensures { OnOk result (page.new ≡ page.old ++ (32 ∷ letter ∷ decimal name)) }
{
    // Literals are stored at once: bytes that were put together just before would have to be waited for.
    match letter {
        b'c' => page.tagged(b" c".as_slice(), name),
        b'p' => page.tagged(b" p".as_slice(), name),
        _ => page.tagged([b' ', letter].as_slice(), name),
    }
}

/// The first words of a note.
#[tactic(auto, using(crate::proofs::NoteHeads::note_head))]
#[inline(always)]
fn print_head(page: &mut Page, number: u64, letter: u8, name: u64, act: u64) -> Result<(), NoMemory>
    ensures { OnOk result (page.new ≡ page.old ++ (decimal number ++ spaced (((letter ∷ decimal name) ++ 47 ∷ decimal act) ∷ []))) }
{
    page.number(number)?;
    print_maker(page, letter, name)?;
    page.tagged(b"/".as_slice(), act)
}

/// An operation on a callout, before its reply.
#[inline(always)]
#[tactic(auto, using(co_text::proofs::Spacing::both_more))]
fn print_call_op(page: &mut Page, op: &Op) -> Result<(), NoMemory>
    ensures { OnOk result (page.new ≡ page.old ++ spaced (op_words op.now ++ codes "=" ∷ [])) }
{
    print_op(page, op)?;
    print_equals(page)
}

/// An operation on a timer queue, before its answer.
#[inline(always)]
#[tactic(auto, using(co_text::proofs::Spacing::both_more))]
fn print_asked_op(page: &mut Page, op: &QOp) -> Result<(), NoMemory>
    ensures { OnOk result (page.new ≡ page.old ++ spaced (queue_words op.now ++ codes "=" ∷ [])) }
{
    print_queue_op(page, op)?;
    print_equals(page)
}

#[inline(always)]
fn print_any_op(page: &mut Page, op: &AnyOp) -> Result<(), NoMemory>
    ensures { OnOk result (page.new ≡ page.old ++ spaced (any_op_words op.now)) }
{
    match op {
        AnyOp::Timer(op) => print_call_op(page, op),
        AnyOp::Cpu(op) => print_asked_op(page, op),
        AnyOp::Own(kind) => print_own_entry(page, *kind),
    }
}

#[inline(always)]
fn print_any_reply(page: &mut Page, reply: &AnyReply) -> Result<(), NoMemory>
    ensures { OnOk result (page.new ≡ page.old ++ spaced (any_reply_words reply.now)) }
{
    match reply {
        AnyReply::Timer(reply) => print_reply(page, reply),
        AnyReply::Cpu(reply) => print_answer(page, reply),
        AnyReply::Own => Ok(()),
    }
}

/// The entry of a packed note, of which each half is unpacked as it is printed. So the compiler goes from a half's kind
/// straight to its words, and builds no entry.
#[inline(always)]
#[tactic(auto, using(crate::proofs::EntryHalves::halves_written))]
fn print_packed_entry(page: &mut Page, packed: &PackedNote) -> Result<(), NoMemory>
    ensures { OnOk result (page.new ≡ page.old ++ spaced (entry_words packed.now.entry)) }
{
    print_any_op(page, &packed.op())?;
    print_any_reply(page, &packed.reply())
}

/// A note as a line: its number in its actor's list, who made it at which act, and what it says. `NoMemory` where the
/// page finds no room.
#[tactic(auto, using(co_text::proofs::Spacing::one_more))]
pub fn print_note(
    page: &mut Page,
    script: &Script,
    number: u64,
    entry: &AnyEntry,
) -> Result<(), NoMemory>
    ensures { OnOk result (page.new ≡ page.old ++ line_text (note_words script.now number entry.now)) }
{
    let (letter, name) = actor_name(script, entry.actor());
    print_head(page, number, letter, name, entry.act())?;
    print_entry(page, entry)?;
    page.end()?;
    Ok(())
}

/// A packed note as a line, which is the line of its note. `NoMemory` where the page finds no room.
#[tactic(auto, using(co_text::proofs::Spacing::one_more))]
pub fn print_packed(
    page: &mut Page,
    script: &Script,
    number: u64,
    packed: &PackedNote,
) -> Result<(), NoMemory>
    ensures { OnOk result (page.new ≡ page.old ++ line_text (note_words script.now number packed.now.entry)) }
{
    let (letter, name) = actor_name(script, packed.actor());
    print_head(page, number, letter, name, packed.act())?;
    print_packed_entry(page, packed)?;
    page.end()?;
    Ok(())
}
