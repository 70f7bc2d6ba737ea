//! Operations on a timer queue, and its answers.
ghost use Rattle.std.specs.Prelude.{◌≡◌, ◌++◌, ◌∷◌, [], decimal, OnOk};
ghost use Rattle.co_text.specs.Lines.{spaced};
ghost use Rattle.co_text.specs.Written.{units_word};
ghost use Rattle.co_notes.specs.NoteTexts.{arming_word, queue_words, answer_words};

use co_grammar::print_lone;
use co_object::{QOp, QReply};
use co_sbt::{NoMemory, Sbt};
use co_text::Page;

/// A text, and what a queue holds: a callout, the number of its arming and its time.
#[inline(always)]
fn print_held(page: &mut Page, tag: &[u8], i: u32, n: u64, t: Sbt) -> Result<(), NoMemory>
    ensures { OnOk result (page.new ≡ page.old ++ (tag.now ++ (decimal i ++ spaced (arming_word n ∷ units_word t ∷ [])))) }
{
    page.tagged(tag, i as u64)?;
    page.tagged(b" #".as_slice(), n)?;
    page.tagged(b" u".as_slice(), t.raw())
}

/// Appends the words of an operation on a timer queue, each behind a space. `NoMemory` where the page finds no room.
#[inline(always)]
pub fn print_queue_op(page: &mut Page, op: &QOp) -> Result<(), NoMemory>
    ensures { OnOk result (page.new ≡ page.old ++ spaced (queue_words op.now)) }
{
    match *op {
        QOp::Insert { i, n, t } => print_held(page, b" insert i".as_slice(), i, n, t),
        QOp::Remove { i } => print_lone(page, b" remove i".as_slice(), i as u64),
        QOp::Scan { now } => print_lone(page, b" scan u".as_slice(), now.raw()),
        QOp::Pop => page.text(b" pop".as_slice()),
        QOp::Free => page.text(b" free".as_slice()),
        QOp::PopDirect => page.text(b" pop direct".as_slice()),
        QOp::FreeDirect => page.text(b" free direct".as_slice()),
    }
}

/// Appends the words of a timer queue's answer, each behind a space. `NoMemory` where the page finds no room.
#[inline(always)]
pub fn print_answer(page: &mut Page, answer: &QReply) -> Result<(), NoMemory>
    ensures { OnOk result (page.new ≡ page.old ++ spaced (answer_words answer.now)) }
{
    match *answer {
        QReply::At(time) => print_lone(page, b" at u".as_slice(), time.raw()),
        QReply::Off => page.text(b" off".as_slice()),
        QReply::Missing => page.text(b" missing".as_slice()),
        QReply::Count(count) => print_lone(page, b" count ".as_slice(), count as u64),
        QReply::Got { i, n, at } => print_held(page, b" got i".as_slice(), i, n, at),
        QReply::Empty => page.text(b" empty".as_slice()),
        QReply::Freed => page.text(b" freed".as_slice()),
    }
}
