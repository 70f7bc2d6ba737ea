//! Notes in words.
ghost use Rattle.std.specs.Prelude.{◌≡◌, ◌++◌, ◌∷◌, OnOk, codes, []};
ghost use Rattle.co_text.specs.Lines.{spaced};
ghost use Rattle.co_text.specs.Written.{token_word, token_words};
ghost use Rattle.co_notes.specs.Parts.{joined};
ghost use Rattle.co_view.specs.Seconds.{seconds_word};
ghost use Rattle.co_view.specs.Words.{cpu_text, note_text, op_words, own_text, place_number, reply_words, queue_words, answer_words};

mod operation;
mod queue;
mod reply;

use crate::seconds::print_seconds;
use co_object::{AnyEntry, Entry, OwnKind, Place, QEntry};
use co_sbt::{NoMemory, Sbt};
use co_text::{Page, Token};
use operation::print_op;
use queue::{print_answer, print_queue_op};
use reply::print_reply;

/// The number of a place among those of its kind.
fn place_number(place: Place) -> u32
    ensures { result ≡ place_number place }
{
    match place {
        Place::Timer(timer) => timer,
        Place::Cpu(cpu) => cpu,
        Place::Actor(actor) => actor,
    }
}

/// A further word.
fn print_word(page: &mut Page, word: &[u8]) -> Result<(), NoMemory>
    ensures { OnOk result (page.new ≡ page.old ++ spaced (word.now ∷ [])) }
{
    page.more(&[Token::Text(word)])
}

/// Further words, `at` and a time.
#[tactic(auto, using(crate::proofs::Pieces::more_at))]
fn print_at(page: &mut Page, before: &[Token], time: Sbt) -> Result<(), NoMemory>
    ensures { OnOk result (page.new ≡ page.old ++ spaced (token_words before.now ++ codes "at" ∷ seconds_word time ∷ [])) }
{
    page.more(before)?;
    page.text(b" at ")?;
    print_seconds(page, time)
}

/// First words, `at` and a time.
#[tactic(auto, using(crate::proofs::Pieces::begun_at))]
fn begin_at(page: &mut Page, first: &Token, before: &[Token], time: Sbt) -> Result<(), NoMemory>
    ensures { OnOk result (page.new ≡ page.old ++ joined (token_word first.now ∷ (token_words before.now ++ codes "at" ∷ seconds_word time ∷ []))) }
{
    page.begin(first, before)?;
    page.text(b" at ")?;
    print_seconds(page, time)
}

/// A note of a callout.
fn print_call_entry(page: &mut Page, timer: u32, entry: &Entry) -> Result<(), NoMemory>
    ensures { OnOk result (page.new ≡ page.old ++ (joined (op_words timer entry.now.op) ++ spaced (reply_words entry.now.reply))) }
{
    print_op(page, timer, &entry.op)?;
    print_reply(page, &entry.reply)
}

/// The CPU whose queue it is.
fn print_cpu(page: &mut Page, cpu: u32) -> Result<(), NoMemory>
    ensures { OnOk result (page.new ≡ page.old ++ cpu_text cpu) }
{
    page.tagged(b"CPU ", u64::from(cpu))?;
    page.text(b": ")
}

/// A note of a CPU's queue.
fn print_queue_entry(page: &mut Page, cpu: u32, entry: &QEntry) -> Result<(), NoMemory>
    ensures { OnOk result (page.new ≡ page.old ++ (cpu_text cpu ++ (joined (queue_words entry.now.op) ++ spaced (answer_words entry.now.reply)))) }
{
    print_cpu(page, cpu)?;
    print_queue_op(page, &entry.op)?;
    print_answer(page, &entry.reply)
}

/// Why an act was refused.
fn own_word(kind: OwnKind) -> &'static [u8]
    ensures { result.now ≡ own_text kind }
{
    match kind {
        OwnKind::NotHeld => b"refused: the call's lock is not held",
        OwnKind::HoldsLock => b"refused: a drain while a lock is held",
        OwnKind::Holding => b"refused: a lock while one is held",
        OwnKind::NotHolding => b"refused: an unlock while none is held",
    }
}

/// What a note of this place says.
pub(crate) fn print_note(page: &mut Page, place: Place, entry: &AnyEntry) -> Result<(), NoMemory>
    ensures { OnOk result (page.new ≡ page.old ++ note_text place entry.now) }
{
    match entry {
        AnyEntry::Timer(entry) => print_call_entry(page, place_number(place), entry),
        AnyEntry::Cpu(entry) => print_queue_entry(page, place_number(place), entry),
        AnyEntry::Own(entry) => page.text(own_word(entry.kind)),
    }
}
