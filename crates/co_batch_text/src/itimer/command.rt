//! The commands of a text.
ghost use Rattle.co_text.specs.Fallible.{Gives};
ghost use Rattle.co_batch_text.specs.Itimer.Commands.{fits, set_form, timer_language};
ghost use Rattle.co_batch.specs.Stated.{stated};

use co_batch::{Command, lone_object, object};
use co_itimer::Itimerval;
use co_sbt::Sbt;
use co_text::{Cause, Words, is_word};

/// A command line of a text for `itimer`.
#[derive(Clone, Copy)]
pub enum TimerCommand {
    /// `set P T T`: sets a process's timer, to a value and an interval, both in units of 2^-32 s.
    Set(u32, Itimerval),
    /// `get P`: asks for what a process's timer has to come.
    Get(u32),
    /// `tick T`: brings the clock to a time, in units of 2^-32 s.
    Tick(Sbt),
    /// `alarm P`: asks for a process's alarm, and clears it.
    Alarm(u32),
}

/// The words after `set`.
fn read_set(count: u32, words: &mut Words) -> Result<TimerCommand, Cause>
    ensures { Gives (λ c. c) result (stated (fits count) (set_form words.old)) }
{
    let number = words.number()?;
    let value = words.time()?;
    let interval = words.time()?;
    words.end()?;
    let to = Itimerval { value, interval };
    Ok(TimerCommand::Set(object(count, number)?, to))
}

impl Command for TimerCommand {
    ghost language = { timer_language };

    fn name() -> &'static [u8] {
        b"itimer".as_slice()
    }

    fn counted() -> &'static [u8] {
        b"processes".as_slice()
    }

    fn read(count: u32, first: &[u8], words: &mut Words) -> Result<TimerCommand, Cause> {
        if is_word(first, b"set".as_slice()) {
            read_set(count, words)
        } else if is_word(first, b"get".as_slice()) {
            lone_object(count, words).map(TimerCommand::Get)
        } else if is_word(first, b"tick".as_slice()) {
            words.lone_time().map(TimerCommand::Tick)
        } else if is_word(first, b"alarm".as_slice()) {
            lone_object(count, words).map(TimerCommand::Alarm)
        } else {
            Err(Cause::Form)
        }
    }

    fn moment(&self) -> Option<Sbt> {
        match *self {
            TimerCommand::Tick(time) => Some(time),
            _ => None,
        }
    }
}
