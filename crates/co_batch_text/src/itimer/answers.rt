//! What the commands of a text are answered.
ghost use Rattle.std.specs.Prelude.{◌≡◌, ◌<◌, ◌+◌, ◌^◌, ◌++◌, ℕ, List, true, length, OnOk, IfOk};
ghost use Rattle.co_service.specs.Closing.{ClosingView};
ghost use Rattle.std.specs.List.{list_all};
ghost use Rattle.co_text.specs.Fallible.{GivesOrNoMemory};
ghost use Rattle.co_text.specs.Lines.{line_text, text};
ghost use Rattle.co_batch.specs.Laws.{AllFit};
ghost use Rattle.co_batch.specs.Answers.{answers, batch_text};
ghost use Rattle.co_batch_text.specs.Itimer.Commands.{timer_language, fits};
ghost use Rattle.co_batch_text.specs.Itimer.Answers.{value_words, answer_words, answering, itimer_text};
ghost use Rattle.co_batch_text.specs.Ends.{AreServed, IsEnd};
ghost use Rattle.co_batch_text.specs.Itimer.Ends.{EndsRun, IsAnswered, timer_served};

use crate::ending::with_closing;
use crate::itimer::command::TimerCommand;
use co_batch::{Batch, print_number, read_batch};
use co_itimer::{Itimers, ItimersFresh, Itimerval};
use co_sbt::{NoMemory, Seq};
use co_service::{Closing, Name};
use co_text::{Page, ScriptFault};
use std::alloc::Global;
use std::marker::Brand;
use std::sync::Wait;

/// A line of a word, a value and an interval.
fn print_value(page: &mut Page, word: &[u8], value: Itimerval) -> Result<(), NoMemory>
    ensures { OnOk result (page.new ≡ page.old ++ line_text (value_words word.now value)) }
{
    page.text(word)?;
    page.tagged(b" u".as_slice(), value.value.raw())?;
    page.tagged(b" u".as_slice(), value.interval.raw())?;
    page.end()
}

/// Answers a command, whose process exists.
fn answer<N: Name, R: Wait>(
    rt: &R,
    page: &mut Page,
    timers: &mut Itimers<N>,
    command: TimerCommand,
) -> Result<(), NoMemory>
    requires fits { fits (length timers.old.alone.timers) command ≡ true }
    requires work { timers.old.work < 2 ^ 62 }
    ensures text { OnOk result (page.new ≡ page.old ++ line_text (answer_words timers.old.alone command)) }
    ensures answered { IsAnswered timers.old command timers.new }
{
    match command {
        TimerCommand::Set(p, to) => {
            let was = timers.set(rt, p, to);
            print_value(page, b"was".as_slice(), was)
        }
        TimerCommand::Get(p) => print_value(page, b"is".as_slice(), timers.get(p)),
        TimerCommand::Tick(time) => {
            let count = timers.tick(rt, time);
            print_number(page, b"ticked".as_slice(), u64::from(count))
        }
        TimerCommand::Alarm(p) => {
            let alarm = timers.alarm(p);
            print_number(page, b"alarm".as_slice(), u64::from(alarm))
        }
    }
}

/// Answers commands, one after the other.
fn answer_all<N: Name, R: Wait>(
    rt: &R,
    page: &mut Page,
    timers: &mut Itimers<N>,
    commands: &[TimerCommand],
) -> Result<(), NoMemory>
    requires fit { list_all (fits (length timers.old.alone.timers)) commands.now ≡ true }
    requires work { timers.old.work + length commands.now < 2 ^ 62 }
    ensures text { OnOk result (page.new ≡ page.old ++ text (answers answering (length timers.old.alone.timers) timers.old.alone commands.now)) }
    ensures served { OnOk result (AreServed timer_served (length timers.old.alone.timers) timers.old.alone timers.old.seen commands.now timers.new.seen) }
{
    for command in commands {
        answer(rt, page, timers, *command)?;
    }
    Ok(())
}

/// What the timers answer to the commands of a batch.
fn text_of<N: Name, R: Wait>(
    rt: &R,
    alloc: Global,
    timers: &mut Itimers<N>,
    batch: &Batch<TimerCommand>,
) -> Result<Seq<u8>, NoMemory>
    requires fit { list_all (fits (length timers.old.alone.timers)) batch.now.commands ≡ true }
    requires new { timers.old.work ≡ 0 }
    ensures text { IfOk result (λ bytes. bytes ≡ text (answers answering (length timers.old.alone.timers) timers.old.alone batch.now.commands)) }
    ensures served { IfOk result (λ _. AreServed timer_served (length timers.old.alone.timers) timers.old.alone timers.old.seen batch.now.commands timers.new.seen) }
{
    let mut page = Page::new(alloc);
    answer_all(rt, &mut page, timers, batch.commands())?;
    page.done()
}

/// Opens the service, answers a batch by it, and ends it.
fn answer_on<N: Name, R: Wait>(
    rt: &R,
    alloc: Global,
    fresh: ItimersFresh,
    batch: &Batch<TimerCommand>,
) -> Result<(Seq<u8>, Closing), NoMemory>
    requires name { fresh.name ≡ N.name }
    requires processes { fresh.processes ≡ batch.now.count }
    requires fit { AllFit timer_language batch.now }
    ensures text { IfOk result (λ out. out.0 ≡ batch_text answering batch.now) }
    ensures end { IfOk result (λ out. IsEnd timer_served batch.now out.1) }
{
    let mut timers = Itimers::<N>::open(alloc, fresh)?;
    let text = text_of(rt, alloc, &mut timers, batch);
    with_closing(text, timers.close(rt))
}

/// Answers a batch by interval timers of its own.
fn answer_batch<R: Wait>(
    rt: &R,
    alloc: Global,
    batch: &Batch<TimerCommand>,
) -> Result<(Seq<u8>, Closing), NoMemory>
    requires { AllFit timer_language batch.now }
    ensures text { IfOk result (λ out. out.0 ≡ batch_text answering batch.now) }
    ensures end { IfOk result (λ out. IsEnd timer_served batch.now out.1) }
{
    let fresh = Itimers::boot(alloc, batch.count())?;
    answer_on::<Brand, R>(rt, alloc, fresh, batch)
}

/// What the command `itimer` writes for a text, and what is left of the service that answered it; or why the text is refused.
///
/// The service has one CPU, on which a `tick` scans, and a callout for each process. The grammar is our own.
pub fn run_itimer<R: Wait>(
    rt: &R,
    alloc: Global,
    bytes: &[u8],
) -> Result<(Seq<u8>, Closing), ScriptFault>
    ensures text { GivesOrNoMemory (λ (out : List ℕ × ClosingView). out.0) result (itimer_text bytes.now) }
    ensures end { IfOk result (λ out. EndsRun bytes.now out.1) }
{
    let batch = read_batch(alloc, bytes)?;
    match answer_batch(rt, alloc, &batch) {
        Ok(out) => Ok(out),
        Err(_) => Err(ScriptFault::NoMemory),
    }
}
