//! What the commands of a text are answered.
ghost use Rattle.std.specs.Prelude.{◌≡◌, ◌<◌, ◌+◌, ◌^◌, ◌++◌, ◌∷◌, [], ℕ, List, true, length, OnOk, IfOk};
ghost use Rattle.std.specs.List.{list_all};
ghost use Rattle.co_service.specs.Closing.{ClosingView};
ghost use Rattle.co_text.specs.Fallible.{GivesOrNoMemory};
ghost use Rattle.co_text.specs.Lines.{line_text, text};
ghost use Rattle.co_batch.specs.Laws.{AllFit};
ghost use Rattle.co_batch.specs.Answers.{answers, batch_text};
ghost use Rattle.co_batch_text.specs.Kq.Commands.{kq_language, fits};
ghost use Rattle.co_batch_text.specs.Kq.Answers.{add_word, deleted_words, event_words, events_lines, answer_lines, answering, kq_text};
ghost use Rattle.co_batch_text.specs.Ends.{AreServed, IsEnd};
ghost use Rattle.co_batch_text.specs.Kq.Ends.{EndsRun, IsAnswered, kq_served};

use crate::ending::with_closing;
use crate::kq::command::KqCommand;
use co_batch::{Batch, print_last, print_number, print_word, read_batch};
use co_kq::{Add, Event, Kq, KqFresh};
use co_sbt::{NoMemory, Seq};
use co_service::{Closing, Name};
use co_text::{Page, ScriptFault};
use std::alloc::Global;
use std::marker::Brand;
use std::sync::Wait;

/// The answer to an add.
fn print_add(page: &mut Page, add: Add) -> Result<(), NoMemory>
    ensures { OnOk result (page.new ≡ page.old ++ line_text (add_word add ∷ [])) }
{
    match add {
        Add::Added => print_word(page, b"added".as_slice()),
        Add::BadValue => print_word(page, b"value".as_slice()),
        Add::Full => print_word(page, b"full".as_slice()),
    }
}

/// The answer to a delete: the expirations that nobody was told of.
fn print_deleted(page: &mut Page, count: Option<u64>) -> Result<(), NoMemory>
    ensures { OnOk result (page.new ≡ page.old ++ line_text (deleted_words count)) }
{
    match count {
        Some(count) => print_number(page, b"deleted".as_slice(), count),
        None => print_word(page, b"noentry".as_slice()),
    }
}

/// A line of an ident and its expirations.
fn print_event(page: &mut Page, event: &Event) -> Result<(), NoMemory>
    ensures { OnOk result (page.new ≡ page.old ++ line_text (event_words event.now)) }
{
    page.number(event.ident)?;
    print_last(page, event.count)
}

/// The number of events and a line for each.
fn print_events(page: &mut Page, events: &[Event]) -> Result<(), NoMemory>
    ensures { OnOk result (page.new ≡ page.old ++ text (events_lines events.now)) }
{
    print_number(page, b"events".as_slice(), events.len() as u64)?;
    for event in events {
        print_event(page, event)?;
    }
    Ok(())
}

/// Answers a command. The events that it tells of are written into `events` first, where there is room for the most.
fn answer<N: Name, R: Wait>(
    rt: &R,
    page: &mut Page,
    list: &mut Kq<N>,
    events: &mut [Event],
    command: KqCommand,
) -> Result<(), NoMemory>
    requires events { length events.old ≡ 1024 }
    requires fits { fits list.old.room command ≡ true }
    requires work { list.old.work < 2 ^ 62 }
    ensures text { OnOk result (page.new ≡ page.old ++ text (answer_lines list.old.room list.old.list command)) }
    ensures answered { IsAnswered list.old command list.new }
{
    match command {
        KqCommand::Add(ident, value, unit, oneshot) => {
            let add = list.add(rt, ident, value, unit, oneshot);
            print_add(page, add)
        }
        KqCommand::Delete(ident) => {
            let count = list.delete(ident);
            print_deleted(page, count)
        }
        KqCommand::Tick(time) => {
            let count = list.tick(rt, time);
            print_number(page, b"ticked".as_slice(), u64::from(count))
        }
        KqCommand::Events(most) => {
            let count = list.events(&mut events[..most as usize]);
            print_events(page, &events[..count])
        }
    }
}

/// Answers commands, one after the other.
fn answer_all<N: Name, R: Wait>(
    rt: &R,
    page: &mut Page,
    list: &mut Kq<N>,
    events: &mut [Event],
    commands: &[KqCommand],
) -> Result<(), NoMemory>
    requires events { length events.old ≡ 1024 }
    requires fit { list_all (fits list.old.room) commands.now ≡ true }
    requires work { list.old.work + length commands.now < 2 ^ 62 }
    ensures text { OnOk result (page.new ≡ page.old ++ text (answers answering list.old.room list.old.list commands.now)) }
    ensures served { OnOk result (AreServed kq_served list.old.room list.old.list list.old.passes commands.now list.new.passes) }
{
    for command in commands {
        answer(rt, page, list, events, *command)?;
    }
    Ok(())
}

/// Room for the most events that one command asks for.
fn no_events(alloc: Global) -> Result<Vec<Event>, NoMemory>
    ensures { IfOk result (λ events. length events.items ≡ 1024) }
{
    Ok(vec![in alloc; Event { ident: 0, count: 0 }; 1024]?)
}

/// What a list answers to the commands of a batch.
fn text_of<N: Name, R: Wait>(
    rt: &R,
    alloc: Global,
    list: &mut Kq<N>,
    batch: &Batch<KqCommand>,
) -> Result<Seq<u8>, NoMemory>
    requires fit { list_all (fits list.old.room) batch.now.commands ≡ true }
    requires new { list.old.work ≡ 0 }
    ensures text { IfOk result (λ bytes. bytes ≡ text (answers answering list.old.room list.old.list batch.now.commands)) }
    ensures served { IfOk result (λ _. AreServed kq_served list.old.room list.old.list list.old.passes batch.now.commands list.new.passes) }
{
    let mut events = no_events(alloc)?;
    let mut page = Page::new(alloc);
    answer_all(rt, &mut page, list, events.as_mut_slice(), batch.commands())?;
    page.done()
}

/// Opens the service, answers a batch by it, and ends it.
fn answer_on<N: Name, R: Wait>(
    rt: &R,
    alloc: Global,
    fresh: KqFresh,
    batch: &Batch<KqCommand>,
) -> Result<(Seq<u8>, Closing), NoMemory>
    requires name { fresh.name ≡ N.name }
    requires knotes { fresh.callouts ≡ batch.now.count }
    requires fit { AllFit kq_language batch.now }
    ensures text { IfOk result (λ out. out.0 ≡ batch_text answering batch.now) }
    ensures end { IfOk result (λ out. IsEnd kq_served batch.now out.1) }
{
    let mut list = Kq::<N>::open(alloc, fresh)?;
    let text = text_of(rt, alloc, &mut list, batch);
    with_closing(text, list.close(rt))
}

/// Answers a batch by a kevent list of its own.
fn answer_batch<R: Wait>(
    rt: &R,
    alloc: Global,
    batch: &Batch<KqCommand>,
) -> Result<(Seq<u8>, Closing), NoMemory>
    requires { AllFit kq_language batch.now }
    ensures text { IfOk result (λ out. out.0 ≡ batch_text answering batch.now) }
    ensures end { IfOk result (λ out. IsEnd kq_served batch.now out.1) }
{
    let fresh = Kq::boot(alloc, batch.count())?;
    answer_on::<Brand, R>(rt, alloc, fresh, batch)
}

/// What the command `kq` writes for a text, and what is left of the service that answered it; or why the text is refused.
///
/// The service has one CPU, on which a `tick` scans, and a callout for each knote that there is room for. The grammar is our own.
pub fn run_kq<R: Wait>(
    rt: &R,
    alloc: Global,
    bytes: &[u8],
) -> Result<(Seq<u8>, Closing), ScriptFault>
    ensures text { GivesOrNoMemory (λ (out : List ℕ × ClosingView). out.0) result (kq_text bytes.now) }
    ensures end { IfOk result (λ out. EndsRun bytes.now out.1) }
{
    let batch = read_batch(alloc, bytes)?;
    match answer_batch(rt, alloc, &batch) {
        Ok(out) => Ok(out),
        Err(_) => Err(ScriptFault::NoMemory),
    }
}
