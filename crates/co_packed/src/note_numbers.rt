//! A note as sixteen numbers, of which most are 0 or small. The first four are its head.
ghost use Rattle.std.specs.Prelude.{◌≡◌, ◌<◌, ◌^◌};
ghost use Rattle.co_packed.specs.Numbered.{code_at, short_at, time_at, op_words_at, reply_words_at, numbered_head, numbered_note};
ghost use Rattle.co_packed.specs.Parts.{entry_of, place_of};

use crate::heads::Head;
use crate::kind_numbers::{sort_at, sort_numbers, whose_at, whose_number};
use crate::packed::{EntryParts, entry_of, entry_parts, place_of, place_parts};
use crate::words::{OpWords, ReplyWords};
use co_object::Note;
use co_sbt::Sbt;

/// A code as a number: a small one on either side of 0 is small.
#[tactic(auto, unfolding(crate::specs::Numbered::code_at))]
fn code_number(code: i32) -> u64
    ensures { code_at result ≡ code }
{
    if code >= 0 {
        2 * (code as u64)
    } else {
        2 * ((-1 - code) as u64) + 1
    }
}

/// The code by its number.
#[tactic(auto, unfolding(crate::specs::Numbered::code_at))]
fn code_at(number: u64) -> i32
    ensures { result ≡ code_at number }
{
    let half = (number / 2 % 0x8000_0000) as i32;
    if number % 2 == 0 { half } else { -1 - half }
}

/// A number of 32 bits.
fn long_of(number: u32) -> u64
    ensures same { result ≡ number }
    ensures bounded { result < 2 ^ 32 }
{
    u64::from(number)
}

/// The lower 32 bits.
#[tactic(auto, unfolding(crate::specs::Numbered::short_at))]
fn short_at(number: u64) -> u32
    ensures { result ≡ short_at number }
{
    (number % 0x1_0000_0000) as u32
}

/// The time of so many units, of which the lower 63 bits count.
#[tactic(auto, unfolding(crate::specs::Numbered::time_at))]
fn time_at(number: u64) -> Sbt
    ensures { result ≡ time_at number }
{
    match Sbt::new(number % 0x8000_0000_0000_0000) {
        Some(time) => time,
        None => unreachable!(),
    }
}

/// The numbers of the operation.
#[tactic(auto, unfolding(crate::specs::Numbered::op_words_at))]
fn op_words_at(numbers: &[u64; 16]) -> OpWords
    ensures { result ≡ op_words_at numbers.now }
{
    OpWords {
        time: time_at(numbers[6]),
        prec: time_at(numbers[7]),
        word: numbers[8],
        number: short_at(numbers[9]),
        cpu: short_at(numbers[10]),
    }
}

/// The numbers of the reply.
#[tactic(auto, unfolding(crate::specs::Numbered::reply_words_at))]
fn reply_words_at(numbers: &[u64; 16]) -> ReplyWords
    ensures { result ≡ reply_words_at numbers.now }
{
    ReplyWords {
        time: time_at(numbers[11]),
        word: numbers[12],
        code: code_at(numbers[13]),
        number: short_at(numbers[14]),
        off: short_at(numbers[15]),
    }
}

/// The note as numbers.
pub(crate) fn numbers_of(note: &Note) -> [u64; 16]
    ensures { numbered_note result ≡ note.now }
{
    let (whose, place) = place_parts(note.place);
    let EntryParts {
        actor,
        act,
        sort,
        op,
        reply,
    } = entry_parts(&note.entry);
    let (kind, answer) = sort_numbers(sort);
    [
        32 * whose_number(whose) + kind,
        note.pos,
        long_of(place),
        long_of(actor),
        answer,
        act,
        op.time.raw(),
        op.prec.raw(),
        op.word,
        long_of(op.number),
        long_of(op.cpu),
        reply.time.raw(),
        reply.word,
        code_number(reply.code),
        long_of(reply.number),
        long_of(reply.off),
    ]
}

/// The head of the note whose first numbers these are.
#[inline]
#[tactic(auto, unfolding(crate::specs::Numbered::numbered_head))]
pub(crate) fn head_of(numbers: &[u64; 4]) -> Head
    ensures { result ≡ numbered_head numbers.now }
{
    Head {
        place: place_of(whose_at(numbers[0] / 32), short_at(numbers[2])),
        pos: numbers[1],
        actor: short_at(numbers[3]),
    }
}

/// The note that the numbers stand for.
#[inline]
#[tactic(auto, unfolding(crate::specs::Numbered::numbered_note))]
pub(crate) fn note_of(numbers: &[u64; 16]) -> Note
    ensures { result ≡ numbered_note numbers.now }
{
    let op = op_words_at(numbers);
    let reply = reply_words_at(numbers);
    let sort = sort_at(numbers[0] % 32, numbers[4]);
    Note {
        place: place_of(whose_at(numbers[0] / 32), short_at(numbers[2])),
        pos: numbers[1],
        entry: entry_of(sort, short_at(numbers[3]), numbers[5], &op, &reply),
    }
}
