//! What a command came to.
ghost use Rattle.std.specs.Prelude.{◌≡◌, ◌++◌, OnOk};
ghost use Rattle.co_text.specs.Lines.{line_text};
ghost use Rattle.co_batch_text.specs.Sleep.Answers.{answer_words};
ghost use Rattle.co_batch_text.specs.Sleep.Matching.{answer_of};

use crate::sleep::print::{print_reply, print_ticked};
use co_sbt::NoMemory;
use co_sleepq::{SleepReply, Ticked};
use co_text::Page;

/// What a command came to: a reply of the sleep queue, or what a tick counts.
#[derive(Clone, Copy)]
pub(crate) enum Said {
    Told(SleepReply),
    Ticked(Ticked),
}

/// The line of an answer.
pub(crate) fn print_said(page: &mut Page, said: Said) -> Result<(), NoMemory>
    ensures { OnOk result (page.new ≡ page.old ++ line_text (answer_words (answer_of said))) }
{
    match said {
        Said::Told(reply) => print_reply(page, reply),
        Said::Ticked(ticked) => print_ticked(page, ticked),
    }
}
