//! Operations on a timer queue, and its answers.
ghost use Rattle.std.specs.Prelude.{◌≡◌, ◌++◌, ◌∷◌, [], OnOk};
ghost use Rattle.co_object.specs.declared.QOp.TheVariants.{Insert};
ghost use Rattle.co_object.specs.declared.QReply.TheVariants.{Got};
ghost use Rattle.co_text.specs.Lines.{spaced};
ghost use Rattle.co_notes.specs.Parts.{joined};
ghost use Rattle.co_view.specs.Words.{answer_words, queue_words};

use crate::words::{begin_at, print_at, print_word};
use co_object::{QOp, QReply};
use co_sbt::{NoMemory, Sbt};
use co_text::{Page, Token};

fn begin_word(page: &mut Page, word: &[u8]) -> Result<(), NoMemory>
    ensures { OnOk result (page.new ≡ page.old ++ joined (word.now ∷ [])) }
{
    page.begin(&Token::Text(word), &[])
}

fn print_insert(page: &mut Page, i: u32, n: u64, t: Sbt) -> Result<(), NoMemory>
    ensures { OnOk result (page.new ≡ page.old ++ joined (queue_words (Insert i n t))) }
{
    begin_at(
        page,
        &Token::Text(b"insert timer"),
        &[Token::Number(u64::from(i)), Token::Lettered(b'#', n)],
        t,
    )
}

/// An operation on a CPU's queue.
pub(crate) fn print_queue_op(page: &mut Page, op: &QOp) -> Result<(), NoMemory>
    ensures { OnOk result (page.new ≡ page.old ++ joined (queue_words op.now)) }
{
    match *op {
        QOp::Insert { i, n, t } => print_insert(page, i, n, t),
        QOp::Remove { i } => page.begin(
            &Token::Text(b"remove timer"),
            &[Token::Number(u64::from(i))],
        ),
        QOp::Scan { now } => begin_at(page, &Token::Text(b"tick"), &[], now),
        QOp::Pop => begin_word(page, b"next due"),
        QOp::Free => begin_word(page, b"free"),
        QOp::PopDirect => begin_word(page, b"next due direct"),
        QOp::FreeDirect => begin_word(page, b"free direct"),
    }
}

fn print_got(page: &mut Page, i: u32, n: u64, at: Sbt) -> Result<(), NoMemory>
    ensures { OnOk result (page.new ≡ page.old ++ spaced (answer_words (Got i n at))) }
{
    let before = [
        Token::Text(b"-> timer"),
        Token::Number(u64::from(i)),
        Token::Lettered(b'#', n),
    ];
    print_at(page, &before, at)
}

/// An answer of a CPU's queue.
pub(crate) fn print_answer(page: &mut Page, answer: &QReply) -> Result<(), NoMemory>
    ensures { OnOk result (page.new ≡ page.old ++ spaced (answer_words answer.now)) }
{
    match *answer {
        QReply::At(time) => print_at(page, &[Token::Text(b"-> in the queue")], time),
        QReply::Off => print_word(page, b"-> out of the queue"),
        QReply::Missing => print_word(page, b"-> not in the queue"),
        QReply::Count(count) => {
            page.more(&[Token::Text(b"-> due:"), Token::Number(u64::from(count))])
        }
        QReply::Got { i, n, at } => print_got(page, i, n, at),
        QReply::Empty => print_word(page, b"-> none"),
        QReply::Freed => print_word(page, b"-> done"),
    }
}
