//! The commands of a text.
ghost use Rattle.co_text.specs.Fallible.{Gives};
ghost use Rattle.co_batch_text.specs.Sleep.Commands.{fits, sleep_form, sleep_language};
ghost use Rattle.co_batch.specs.Stated.{in_range, stated};
ghost use Rattle.co_batch_text.specs.declared.sleep.command.SleepCommand.TheVariants.{Sleep};

use crate::number::{lone_narrow, narrow};
use co_batch::{Command, lone_object, object};
use co_sbt::Sbt;
use co_text::{Cause, Words, is_word};

/// A command line of a text for `sleep`.
#[derive(Clone, Copy)]
pub enum SleepCommand {
    /// `sleep I C M`: sleeper I begins to sleep on channel C, for at most M ticks of which 1000 are a second, or without a
    /// limit where M is 0.
    Sleep(u32, u64, u32),
    /// `wakeup C`: wakes all who sleep on the channel.
    Wakeup(u64),
    /// `wakeup1 C`: wakes the one of them who began first.
    WakeupOne(u64),
    /// `awake I`: asks how the sleeper's last sleep ended.
    Awake(u32),
    /// `tick T`: the clock comes to this time, in units of 2^-32 s.
    Tick(Sbt),
}

/// The command `sleep` of these numbers, where they are in their ranges.
fn sleep_of(count: u32, i: u128, chan: u128, timo: u128) -> Result<SleepCommand, Cause>
    ensures { Gives (λ c. c) result (in_range (fits count) (Sleep i chan timo)) }
{
    let i = object(count, i)?;
    let chan = narrow(chan)?;
    Ok(SleepCommand::Sleep(i, chan, object(2_147_483_648, timo)?))
}

/// The words after `sleep`.
fn read_sleep(count: u32, words: &mut Words) -> Result<SleepCommand, Cause>
    ensures { Gives (λ c. c) result (stated (fits count) (sleep_form words.old)) }
{
    let i = words.number()?;
    let chan = words.number()?;
    let timo = words.lone_number()?;
    sleep_of(count, i, chan, timo)
}

impl Command for SleepCommand {
    ghost language = { sleep_language };

    fn name() -> &'static [u8] {
        b"sleep".as_slice()
    }

    fn counted() -> &'static [u8] {
        b"sleepers".as_slice()
    }

    fn read(count: u32, first: &[u8], words: &mut Words) -> Result<SleepCommand, Cause> {
        if is_word(first, b"sleep".as_slice()) {
            read_sleep(count, words)
        } else if is_word(first, b"wakeup".as_slice()) {
            lone_narrow(words).map(SleepCommand::Wakeup)
        } else if is_word(first, b"wakeup1".as_slice()) {
            lone_narrow(words).map(SleepCommand::WakeupOne)
        } else if is_word(first, b"awake".as_slice()) {
            lone_object(count, words).map(SleepCommand::Awake)
        } else if is_word(first, b"tick".as_slice()) {
            words.lone_time().map(SleepCommand::Tick)
        } else {
            Err(Cause::Form)
        }
    }

    fn moment(&self) -> Option<Sbt> {
        match *self {
            SleepCommand::Tick(time) => Some(time),
            _ => None,
        }
    }
}
