//! What an act states, word by word.
ghost use Rattle.std.specs.Prelude.{◌≡◌, Ok, OnOk};
ghost use Rattle.co_text.specs.Fallible.{Gives};
ghost use Rattle.co_grammar.specs.Checks.{typed};
ghost use Rattle.co_grammar.specs.Forms.{reset_form, ticks_form, schedule_form, drain_form, act_form};
ghost use Rattle.co_grammar.specs.LoneActs.{timed_act, numbered_act, who_act, timed_form, numbered_form, who_form, unlock_form, number_alone, who_alone};

use crate::convert::{argument_of, number_of, ticks_of, where_of, who_of};
use crate::keyword::Verb;
use crate::operands::{lone_who, moment, optional_cpu, optional_precision, who};
use co_program::{Act, Who};
use co_sbt::Sbt;
use co_text::{Cause, Words};

// The act is put where the caller wants it, since each return of so large a value would be a copy. So the choice by the
// verb belongs into its caller, and each form below writes what it reads once. What was there before does not matter, and
// after an error nothing is said of it.

/// `reset W +T fF aA [cpu C] [pr T]`.
fn reset(serviced: bool, words: &mut Words, into: &mut Act) -> Result<(), Cause>
    ensures { Gives (λ _. into.new) result (typed (reset_form serviced words.old)) }
{
    let who = who(serviced, words)?;
    let when = moment(words)?;
    let func = words.func()?;
    let arg = words.argument()?;
    let cpu = optional_cpu(words)?;
    let prec = optional_precision(words)?;
    words.end()?;
    let who = who_of(who)?;
    let func = number_of(func)?;
    let arg = argument_of(arg)?;
    let cpu = where_of(cpu)?;
    *into = Act::Reset {
        who,
        when,
        func,
        arg,
        cpu,
        prec,
    };
    Ok(())
}

/// `ticks W K fF aA [cpu C]`.
fn ticks(serviced: bool, words: &mut Words, into: &mut Act) -> Result<(), Cause>
    ensures { Gives (λ _. into.new) result (typed (ticks_form serviced words.old)) }
{
    let who = who(serviced, words)?;
    let ticks = words.signed()?;
    let func = words.func()?;
    let arg = words.argument()?;
    let cpu = optional_cpu(words)?;
    words.end()?;
    let who = who_of(who)?;
    let ticks = ticks_of(ticks)?;
    let func = number_of(func)?;
    let arg = argument_of(arg)?;
    let cpu = where_of(cpu)?;
    *into = Act::Ticks {
        who,
        ticks,
        func,
        arg,
        cpu,
    };
    Ok(())
}

/// `schedule W +T [cpu C] [pr T]`.
fn schedule(serviced: bool, words: &mut Words, into: &mut Act) -> Result<(), Cause>
    ensures { Gives (λ _. into.new) result (typed (schedule_form serviced words.old)) }
{
    let who = who(serviced, words)?;
    let when = moment(words)?;
    let cpu = optional_cpu(words)?;
    let prec = optional_precision(words)?;
    words.end()?;
    let who = who_of(who)?;
    let cpu = where_of(cpu)?;
    *into = Act::Schedule {
        who,
        when,
        cpu,
        prec,
    };
    Ok(())
}

/// `adrain W fF`.
fn async_drain(serviced: bool, words: &mut Words, into: &mut Act) -> Result<(), Cause>
    ensures { Gives (λ _. into.new) result (typed (drain_form serviced words.old)) }
{
    let who = who(serviced, words)?;
    let func = words.func()?;
    words.end()?;
    let who = who_of(who)?;
    let func = number_of(func)?;
    *into = Act::AsyncDrain { who, func };
    Ok(())
}

/// The act of a time, by its verb.
#[inline(always)]
pub(crate) fn timed_act(verb: Verb, time: Sbt) -> Act
    ensures { result ≡ timed_act verb time }
{
    match verb {
        Verb::Now => Act::Now(time),
        _ => Act::Tick(time),
    }
}

/// `now T` or `tick T`.
#[inline(always)]
fn timed(verb: Verb, words: &mut Words, into: &mut Act) -> Result<(), Cause>
    ensures { Gives (λ _. into.new) result (typed (timed_form verb words.old)) }
{
    *into = timed_act(verb, words.lone_time()?);
    Ok(())
}

/// The act of a number, by its verb.
#[inline(always)]
pub(crate) fn numbered_act(verb: Verb, number: u32) -> Act
    ensures { result ≡ numbered_act verb number }
{
    match verb {
        Verb::Lock => Act::Lock(number),
        Verb::ReadLock => Act::ReadLock(number),
        _ => Act::Drain(number),
    }
}

/// A number of 32 bits alone.
#[inline(always)]
fn typed_number(words: &mut Words) -> Result<u32, Cause>
    ensures { Gives (λ n. n) result (number_alone words.old) }
{
    words.lone_number().and_then(number_of)
}

/// `lock N`, `rlock N` or `drain N`.
#[inline(always)]
fn numbered(verb: Verb, words: &mut Words, into: &mut Act) -> Result<(), Cause>
    ensures { Gives (λ _. into.new) result (typed (numbered_form verb words.old)) }
{
    *into = numbered_act(verb, typed_number(words)?);
    Ok(())
}

/// The act of a callout alone, by its verb.
#[inline(always)]
pub(crate) fn who_act(verb: Verb, who: Who) -> Act
    ensures { result ≡ who_act verb who }
{
    match verb {
        Verb::Stop => Act::Stop(who),
        Verb::Active => Act::Active(who),
        Verb::Pending => Act::Pending(who),
        Verb::Deactivate => Act::Deactivate(who),
        Verb::Init => Act::Init(who),
        _ => Act::Retire(who),
    }
}

/// A callout alone.
#[inline(always)]
fn typed_who(serviced: bool, words: &mut Words) -> Result<Who, Cause>
    ensures { Gives (λ w. w) result (who_alone serviced words.old) }
{
    who_of(lone_who(serviced, words)?)
}

/// `stop W` and what else is of a callout alone.
#[inline(always)]
fn of_who(serviced: bool, verb: Verb, words: &mut Words, into: &mut Act) -> Result<(), Cause>
    ensures { Gives (λ _. into.new) result (typed (who_form serviced verb words.old)) }
{
    *into = who_act(verb, typed_who(serviced, words)?);
    Ok(())
}

/// `unlock`.
#[inline(always)]
fn unlock(words: &mut Words, into: &mut Act) -> Result<(), Cause>
    ensures { Gives (λ _. into.new) result (typed (unlock_form words.old)) }
{
    words.end()?;
    *into = Act::Unlock;
    Ok(())
}

/// The act of a verb and of the words behind it.
#[inline(always)]
fn read_act(serviced: bool, verb: Verb, words: &mut Words, into: &mut Act) -> Result<(), Cause>
    ensures { Gives (λ _. into.new) result (typed (act_form serviced verb words.old)) }
{
    match verb {
        Verb::Now | Verb::Tick => timed(verb, words, into),
        Verb::Lock | Verb::ReadLock | Verb::Drain => numbered(verb, words, into),
        Verb::Unlock => unlock(words, into),
        Verb::Reset => reset(serviced, words, into),
        Verb::Ticks => ticks(serviced, words, into),
        Verb::Schedule => schedule(serviced, words, into),
        Verb::AsyncDrain => async_drain(serviced, words, into),
        Verb::Stop | Verb::Active | Verb::Pending => of_who(serviced, verb, words, into),
        Verb::Deactivate | Verb::Init | Verb::Retire => of_who(serviced, verb, words, into),
    }
}

/// Puts into `into` the act of this first word and of the words behind it; `Form` where they are not of its form, else
/// `Number` where an act's type does not hold one of its numbers: then it fits no script. `serviced` says that the act is
/// of a function, where `me` names a callout. What was in `into` does not matter, and after an error nothing is said of
/// what is there.
#[inline(always)]
pub fn act(serviced: bool, verb: Verb, words: &mut Words, into: &mut Act) -> Result<(), Cause>
    ensures read { Gives (λ _. into.new) result (typed (act_form serviced verb words.old)) }
    ensures act { OnOk result (act_form serviced verb words.old ≡ Ok into.new) }
{
    read_act(serviced, verb, words, into)
}
