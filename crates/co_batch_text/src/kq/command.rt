//! The commands of a text.
ghost use Rattle.std.specs.Prelude.{ℕ};
ghost use Rattle.co_text.specs.Fallible.{Gives};
ghost use Rattle.co_text.specs.Values.{number};
ghost use Rattle.co_batch_text.specs.Kq.Commands.{add_form, fits, kq_language, unit_of};
ghost use Rattle.co_batch.specs.Stated.{in_range, lone_of, stated};
ghost use Rattle.co_batch_text.specs.declared.kq.command.KqCommand.TheVariants.{Add, Events};

use crate::number::{lone_narrow, narrow};
use co_batch::Command;
use co_kq::Unit;
use co_sbt::Sbt;
use co_text::{Cause, Words, is_word};

/// A line of a text for the kevent list.
#[derive(Clone, Copy)]
pub enum KqCommand {
    /// `add I V U [oneshot]`: adds a knote with its ident, its value and the value's unit, and whether it expires once
    /// alone.
    Add(u64, u64, Unit, bool),
    /// `delete I`: deletes the knote of an ident.
    Delete(u64),
    /// `tick T`: brings the clock to a time, in units of 2^-32 s.
    Tick(Sbt),
    /// `events N`: asks for up to N events, at most 1024.
    Events(u32),
}

/// The unit that a word names, else `Form`.
fn unit_of(word: &[u8]) -> Result<Unit, Cause>
    ensures { Gives (λ u. u) result (unit_of word.now) }
{
    if is_word(word, b"s".as_slice()) {
        Ok(Unit::Seconds)
    } else if is_word(word, b"ms".as_slice()) {
        Ok(Unit::Milli)
    } else if is_word(word, b"us".as_slice()) {
        Ok(Unit::Micro)
    } else if is_word(word, b"ns".as_slice()) {
        Ok(Unit::Nano)
    } else {
        Err(Cause::Form)
    }
}

/// The command `add`, where its numbers are in their ranges.
fn add_of(ident: u128, value: u128, unit: Unit, oneshot: bool) -> Result<KqCommand, Cause>
    ensures { (n : ℕ) → Gives (λ c. c) result (in_range (fits n) (Add ident value unit oneshot)) }
{
    let ident = narrow(ident)?;
    Ok(KqCommand::Add(ident, narrow(value)?, unit, oneshot))
}

/// The words after `add`.
fn read_add(words: &mut Words) -> Result<KqCommand, Cause>
    ensures { (n : ℕ) → Gives (λ c. c) result (stated (fits n) (add_form words.old)) }
{
    let ident = words.number()?;
    let value = words.number()?;
    let unit = unit_of(words.word()?)?;
    let oneshot = words.option(b"oneshot".as_slice());
    words.end()?;
    add_of(ident, value, unit, oneshot)
}

/// The words after `events`.
fn read_events(words: &mut Words) -> Result<KqCommand, Cause>
    ensures { (n : ℕ) → Gives (λ c. c) result (stated (fits n) (lone_of number Events words.old)) }
{
    let most = words.lone_number()?;
    if most > 1024 {
        return Err(Cause::Number);
    }
    Ok(KqCommand::Events(most as u32))
}

impl Command for KqCommand {
    ghost language = { kq_language };

    fn name() -> &'static [u8] {
        b"kq".as_slice()
    }

    fn counted() -> &'static [u8] {
        b"knotes".as_slice()
    }

    fn read(_count: u32, first: &[u8], words: &mut Words) -> Result<KqCommand, Cause> {
        if is_word(first, b"add".as_slice()) {
            read_add(words)
        } else if is_word(first, b"delete".as_slice()) {
            lone_narrow(words).map(KqCommand::Delete)
        } else if is_word(first, b"tick".as_slice()) {
            words.lone_time().map(KqCommand::Tick)
        } else if is_word(first, b"events".as_slice()) {
            read_events(words)
        } else {
            Err(Cause::Form)
        }
    }

    fn moment(&self) -> Option<Sbt> {
        match *self {
            KqCommand::Tick(time) => Some(time),
            _ => None,
        }
    }
}
