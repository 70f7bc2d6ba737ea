//! The lines that answer a command.
ghost use Rattle.std.specs.Prelude.{◌≡◌, ◌++◌, OnOk};
ghost use Rattle.co_text.specs.Lines.{line_text};
ghost use Rattle.co_batch_text.specs.Sleep.Answers.{end_words, reply_words, ticked_words};

use co_batch::{print_number, print_word};
use co_sbt::NoMemory;
use co_sleepq::{End, SleepReply, Ticked};
use co_text::Page;

/// How a sleep ended.
fn print_end(page: &mut Page, end: End) -> Result<(), NoMemory>
    ensures { OnOk result (page.new ≡ page.old ++ line_text (end_words end)) }
{
    match end {
        End::Never => print_word(page, b"never".as_slice()),
        End::Woken => print_word(page, b"woken".as_slice()),
        End::TimedOut => print_word(page, b"timedout".as_slice()),
    }
}

/// The line of a reply, at the end of the page. `NoMemory` where the page finds no room.
pub fn print_reply(page: &mut Page, reply: SleepReply) -> Result<(), NoMemory>
    ensures { OnOk result (page.new ≡ page.old ++ line_text (reply_words reply)) }
{
    match reply {
        SleepReply::Began(s) => print_number(page, b"began".as_slice(), s),
        SleepReply::Already => print_word(page, b"already".as_slice()),
        SleepReply::Worn => print_word(page, b"worn".as_slice()),
        SleepReply::Woke(k) => print_number(page, b"woke".as_slice(), u64::from(k)),
        SleepReply::One(i) => print_number(page, b"one".as_slice(), u64::from(i)),
        SleepReply::Nobody => print_word(page, b"nobody".as_slice()),
        SleepReply::TimedOut(i) => print_number(page, b"out".as_slice(), u64::from(i)),
        SleepReply::Late => print_word(page, b"late".as_slice()),
        SleepReply::Asleep => print_word(page, b"asleep".as_slice()),
        SleepReply::Was(end) => print_end(page, end),
    }
}

/// The line of a tick, at the end of the page. `NoMemory` where the page finds no room.
pub fn print_ticked(page: &mut Page, ticked: Ticked) -> Result<(), NoMemory>
    ensures { OnOk result (page.new ≡ page.old ++ line_text (ticked_words ticked.out ticked.late)) }
{
    page.tagged(b"ticked ".as_slice(), u64::from(ticked.out))?;
    page.tagged(b" ".as_slice(), u64::from(ticked.late))?;
    page.end()
}
