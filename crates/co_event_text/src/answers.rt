//! What the commands of a text are answered.
ghost use Rattle.std.specs.Prelude.{◌≡◌, ◌≤◌, ◌<◌, ◌++◌, true, length, map, OnOk, IfOk, IfSome, MatchOption};
ghost use Rattle.std.specs.List.{list_all};
ghost use Rattle.co_text.specs.Fallible.{GivesOrNoMemory};
ghost use Rattle.co_text.specs.Lines.{line_text, text};
ghost use Rattle.co_batch.specs.Laws.{AllFit};
ghost use Rattle.co_batch.specs.Answers.{answers, batch_text};
ghost use Rattle.co_event.specs.Events.{Events};
ghost use Rattle.co_event.specs.EventTimers.{first_deadline};
ghost use Rattle.co_event.specs.StandsFor.{Answers, StandsFor, written};
ghost use Rattle.co_event_text.specs.Commands.{event_language, fits};
ghost use Rattle.co_event_text.specs.Answers.{answered, answering, earliest_of, event_lines, event_text, fired_words, take_by, run_until, until_words};
ghost use Rattle.co_event_text.specs.Written.{IsPageWritten, left_by};
ghost use Rattle.co_event_text.specs.declared.command.EventCommand.TheVariants.{Arm, Stop};

use crate::command::EventCommand;
use co_batch::{Batch, print_number, read_batch};
use co_event::{Event, EventQueue};
use co_program::When;
use co_sbt::{NoMemory, Sbt, Seq};
use co_text::{Page, ScriptFault};
use std::alloc::Global;

/// A line for each of these callouts.
fn print_fired(page: &mut Page, numbers: &[u32]) -> Result<(), NoMemory>
    ensures { OnOk result (page.new ≡ page.old ++ text (map fired_words numbers.now)) }
{
    for number in numbers {
        print_number(page, b"fired".as_slice(), u64::from(*number))?;
    }
    Ok(())
}

/// An event, and the callouts that fire at it.
fn print_event(page: &mut Page, event: Event, numbers: &[u32]) -> Result<(), NoMemory>
    ensures { OnOk result (page.new ≡ page.old ++ text (event_lines event numbers.now)) }
{
    page.tagged(b"event u".as_slice(), event.at.raw())?;
    page.tagged(b" ".as_slice(), u64::from(event.count))?;
    page.end()?;
    print_fired(page, numbers)
}

/// The line at the end of an `until`.
fn print_until(page: &mut Page, time: Sbt) -> Result<(), NoMemory>
    ensures { OnOk result (page.new ≡ page.old ++ line_text (until_words time)) }
{
    page.tagged(b"until u".as_slice(), time.raw())?;
    page.end()
}

/// The next event, where it comes by `time`.
fn take_by(queue: &mut EventQueue, time: Sbt, out: &mut [u32]) -> Option<Event>
    requires { queue.old.timers.size ≤ length out.old }
    ensures answers { Answers queue.old queue.new (take_by time) (result, written result out.new) }
    ensures within { IfSome result (λ event. event.count ≤ length out.new) }
    ensures left { MatchOption result (IfSome (first_deadline queue.new) (λ moment. time < moment))
        (λ _. left_by time (first_deadline queue.new) < left_by time (first_deadline queue.old)) }
{
    if queue.next_event()? > time {
        return None;
    }
    queue.take(out)
}

/// Takes the events that come by `time`, and settles then.
fn until(
    page: &mut Page,
    queue: &mut EventQueue,
    out: &mut [u32],
    time: Sbt,
) -> Result<(), NoMemory>
    requires { queue.old.timers.size ≤ length out.old }
    ensures size { queue.new.timers.size ≡ queue.old.timers.size }
    ensures written { OnOk result (IsPageWritten queue.old queue.new page.old page.new (run_until time)) }
{
    while let Some(event) = take_by(queue, time, out) {
        print_event(page, event, &out[..event.count as usize])?;
    }
    queue.settle(time);
    print_until(page, time)
}

/// The time from which an arming may fire, where the clock has run up to `now`.
fn due_of(now: Sbt, when: When) -> Sbt
    ensures { result ≡ earliest_of now when }
{
    match when {
        When::After(span) => now.sat_add(span),
        When::At(time) => time,
    }
}

/// Arms a callout.
fn arm(
    page: &mut Page,
    queue: &mut EventQueue,
    i: u32,
    when: When,
    prec: Sbt,
) -> Result<(), NoMemory>
    requires { i < queue.old.timers.size }
    ensures size { queue.new.timers.size ≡ queue.old.timers.size }
    ensures written { OnOk result (IsPageWritten queue.old queue.new page.old page.new (answered (Arm i when prec))) }
{
    let armed = queue.arm(i, due_of(queue.now(), when), prec);
    page.text(b"armed ".as_slice())?;
    page.signed(armed.code)?;
    page.tagged(b" u".as_slice(), armed.due.raw())?;
    page.end()
}

/// Takes a callout out of what is pending.
fn stop(page: &mut Page, queue: &mut EventQueue, i: u32) -> Result<(), NoMemory>
    requires { i < queue.old.timers.size }
    ensures size { queue.new.timers.size ≡ queue.old.timers.size }
    ensures written { OnOk result (IsPageWritten queue.old queue.new page.old page.new (answered (Stop i))) }
{
    let code = queue.stop(i);
    page.text(b"stopped ".as_slice())?;
    page.signed(code)?;
    page.end()
}

/// Answers a command, whose callout exists.
fn answer(
    page: &mut Page,
    queue: &mut EventQueue,
    out: &mut [u32],
    command: EventCommand,
) -> Result<(), NoMemory>
    requires fits { fits queue.old.timers.size command ≡ true }
    requires room { queue.old.timers.size ≤ length out.old }
    ensures size { queue.new.timers.size ≡ queue.old.timers.size }
    ensures written { OnOk result (IsPageWritten queue.old queue.new page.old page.new (answered command)) }
{
    match command {
        EventCommand::Arm(i, when, prec) => arm(page, queue, i, when, prec),
        EventCommand::Stop(i) => stop(page, queue, i),
        EventCommand::Until(time) => until(page, queue, out, time),
    }
}

/// Answers commands, one after the other.
fn answer_all(
    page: &mut Page,
    queue: &mut EventQueue,
    out: &mut [u32],
    commands: &[EventCommand],
) -> Result<(), NoMemory>
    requires fit { list_all (fits queue.old.timers.size) commands.now ≡ true }
    requires room { queue.old.timers.size ≤ length out.old }
    ensures { OnOk result ((e : Events) → StandsFor queue.old e → page.new ≡ page.old ++ text (answers answering queue.old.timers.size e commands.now)) }
{
    for command in commands {
        answer(page, queue, out, *command)?;
    }
    Ok(())
}

/// A place for each callout's number.
fn places(alloc: Global, callouts: u32) -> Result<Vec<u32>, NoMemory>
    ensures { IfOk result (λ places. length places.items ≡ callouts) }
{
    Ok(vec![in alloc; 0; callouts as usize]?)
}

/// What a queue answers to the commands of a batch.
fn text_of(
    alloc: Global,
    queue: &mut EventQueue,
    batch: &Batch<EventCommand>,
) -> Result<Seq<u8>, NoMemory>
    requires fit { list_all (fits queue.old.timers.size) batch.now.commands ≡ true }
    requires size { queue.old.timers.size ≡ batch.now.count }
    ensures { (e : Events) → StandsFor queue.old e → IfOk result (λ bytes. bytes ≡ text (answers answering queue.old.timers.size e batch.now.commands)) }
{
    let mut out = places(alloc, batch.count())?;
    let mut page = Page::new(alloc);
    answer_all(&mut page, queue, out.as_mut_slice(), batch.commands())?;
    page.done()
}

/// The text that a batch is answered by.
fn answer_batch(alloc: Global, batch: &Batch<EventCommand>) -> Result<Seq<u8>, NoMemory>
    requires { AllFit event_language batch.now }
    ensures { IfOk result (λ bytes. bytes ≡ batch_text answering batch.now) }
{
    let mut queue = EventQueue::new(alloc, batch.count())?;
    text_of(alloc, &mut queue, batch)
}

/// What the command `event` writes for a text, or why it refuses it.
///
/// The grammar, the order of the callouts that fire at one moment and the moment for which the clock is programmed are our own
/// decisions.
pub fn run_event(alloc: Global, bytes: &[u8]) -> Result<Seq<u8>, ScriptFault>
    ensures { GivesOrNoMemory (λ answer. answer) result (event_text bytes.now) }
{
    let batch = read_batch(alloc, bytes)?;
    match answer_batch(alloc, &batch) {
        Ok(text) => Ok(text),
        Err(_) => Err(ScriptFault::NoMemory),
    }
}
