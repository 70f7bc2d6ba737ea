//! The commands of a text.
ghost use Rattle.co_text.specs.Fallible.{Gives};
ghost use Rattle.co_event_text.specs.Commands.{arm_form, event_language, fits};
ghost use Rattle.co_batch.specs.Stated.{stated};

use co_batch::{Command, lone_object, object};
use co_grammar::moment;
use co_program::When;
use co_sbt::Sbt;
use co_text::{Cause, Words, is_word};

/// A command line of a text for `event`.
#[derive(Clone, Copy)]
pub enum EventCommand {
    /// `arm I +T pr T`, or `=T`: arms a callout, from when it may fire, with the precision in units of 2^-32 s.
    Arm(u32, When, Sbt),
    /// `stop I`: takes a callout out of what is pending.
    Stop(u32),
    /// `until T`: takes the events that come by a time, in units of 2^-32 s, and settles then.
    Until(Sbt),
}

/// The words after `arm`.
fn read_arm(count: u32, words: &mut Words) -> Result<EventCommand, Cause>
    ensures { Gives (λ c. c) result (stated (fits count) (arm_form words.old)) }
{
    let number = words.number()?;
    let when = moment(words)?;
    if !words.option(b"pr".as_slice()) {
        return Err(Cause::Form);
    }
    let prec = words.lone_time()?;
    Ok(EventCommand::Arm(object(count, number)?, when, prec))
}

impl Command for EventCommand {
    ghost language = { event_language };

    fn name() -> &'static [u8] {
        b"event".as_slice()
    }

    fn counted() -> &'static [u8] {
        b"timers".as_slice()
    }

    fn read(count: u32, first: &[u8], words: &mut Words) -> Result<EventCommand, Cause> {
        if is_word(first, b"arm".as_slice()) {
            read_arm(count, words)
        } else if is_word(first, b"stop".as_slice()) {
            lone_object(count, words).map(EventCommand::Stop)
        } else if is_word(first, b"until".as_slice()) {
            words.lone_time().map(EventCommand::Until)
        } else {
            Err(Cause::Form)
        }
    }

    fn moment(&self) -> Option<Sbt> {
        match *self {
            EventCommand::Until(time) => Some(time),
            _ => None,
        }
    }
}
