//! What the commands of a text are answered.
ghost use Rattle.std.specs.Prelude.{◌≡◌, ◌<◌, ◌≤◌, ◌^◌, ℕ, List, [], true, max, OnOk, IfOk};
ghost use Rattle.std.specs.List.{list_all};
ghost use Rattle.co_text.specs.Fallible.{GivesOrNoMemory};
ghost use Rattle.co_batch.specs.Laws.{AllFit};
ghost use Rattle.co_text.specs.Lines.{text};
ghost use Rattle.co_batch.specs.Answers.{answers, batch_text};
ghost use Rattle.co_service.specs.Closing.{ClosingView};
ghost use Rattle.co_single.specs.Alarms.{made_at};
ghost use Rattle.co_sleepq.specs.Params.{ArePasses, actors, sleepers};
ghost use Rattle.co_batch_text.specs.Sleep.Answers.{answering, sleep_text};
ghost use Rattle.co_batch_text.specs.Sleep.Clock.{Clocked, clock_opening, obey};
ghost use Rattle.co_batch_text.specs.Sleep.Commands.{fits, sleep_language};
ghost use Rattle.co_batch_text.specs.Ends.{IsEnd};
ghost use Rattle.co_batch_text.specs.Sleep.Ends.{EndsRun, sleep_served};
ghost use Rattle.co_batch_text.specs.Sleep.Matching.{AreObeyed, IsMatched, IsObeyed, answer_of, now_after};
ghost use Rattle.co_batch_text.specs.Sleep.Running.{AreAnswered, AreCommands, AreFree, AreOpening, IsBooted};

use crate::ending::with_closing;
use crate::sleep::command::SleepCommand;
use crate::sleep::said::{Said, print_said};
use co_batch::{Batch, read_batch};
use co_sbt::{NoMemory, Room, Sbt, Seq};
use co_service::Closing;
use co_sleepq::{SleepFresh, SleepName, SleepPasses, SleepQueue};
use co_text::{Page, ScriptFault};
use std::alloc::Global;
use std::marker::Brand;
use std::sync::Wait;

/// Makes the call that a command asks for, where the clock shows `now`.
fn obey<N: SleepName, R: Wait>(
    rt: &R,
    queue: &SleepQueue<N>,
    cpu: &mut SleepPasses,
    now: Sbt,
    command: SleepCommand,
) -> Said
    requires cpu { AreFree N.name N.book queue.now cpu.old }
    requires alone { actors queue.now ≡ 1 }
    requires fits { fits (sleepers queue.now) command ≡ true }
    requires made { (i : ℕ) → made_at cpu.old.service i < 2 ^ 62 }
    ensures cpu { AreFree N.name N.book queue.now cpu.new }
    ensures obeyed { (c : Clocked) → IsMatched (sleepers queue.now) c cpu.old → c.now ≡ now →
        IsObeyed (sleepers queue.now) c command cpu.old cpu.new × (answer_of result ≡ (obey (sleepers queue.now) c command).1) }
{
    match command {
        SleepCommand::Sleep(i, chan, timo) => {
            let made = queue.sleep(rt, cpu, 0, i, chan, timo, now);
            Said::Told(made.reply)
        }
        SleepCommand::Wakeup(chan) => Said::Told(queue.wakeup(rt, cpu, chan)),
        SleepCommand::WakeupOne(chan) => Said::Told(queue.wakeup_one(rt, cpu, chan)),
        SleepCommand::Awake(i) => Said::Told(queue.awake(rt, cpu, 0, i).reply),
        SleepCommand::Tick(time) => Said::Ticked(queue.tick(rt, cpu, 0, time)),
    }
}

/// The later of two times.
fn later(a: Sbt, b: Sbt) -> Sbt
    ensures { result ≡ max a b }
{
    if a < b { b } else { a }
}

/// What the clock shows after a command.
fn now_after(now: Sbt, command: SleepCommand) -> Sbt
    ensures { result ≡ now_after now command }
{
    match command {
        SleepCommand::Tick(time) => later(now, time),
        _ => now,
    }
}

/// Answers commands, one after the other.
fn answer_all<N: SleepName, R: Wait>(
    rt: &R,
    page: &mut Page,
    queue: &SleepQueue<N>,
    cpu: &mut SleepPasses,
    commands: &[SleepCommand],
) -> Result<(), NoMemory>
    requires cpu { AreFree N.name N.book queue.now cpu.old }
    requires alone { actors queue.now ≡ 1 }
    requires opening { AreOpening (sleepers queue.now) cpu.old }
    requires commands { AreCommands (sleepers queue.now) commands.now }
    ensures cpu { ArePasses N.name N.book queue.now cpu.new }
    ensures answered { OnOk result (AreAnswered (sleepers queue.now) commands.now cpu.old cpu.new page.old page.new) }
{
    let mut now = Sbt::zero();
    for command in commands {
        let said = obey(rt, queue, cpu, now, *command);
        print_said(page, said)?;
        now = now_after(now, *command);
    }
    Ok(())
}

/// What a sleep queue answers to the commands of a batch.
fn text_of<N: SleepName, R: Wait>(
    rt: &R,
    alloc: Global,
    queue: &SleepQueue<N>,
    cpu: &mut SleepPasses,
    batch: &Batch<SleepCommand>,
) -> Result<Seq<u8>, NoMemory>
    requires cpu { AreFree N.name N.book queue.now cpu.old }
    requires alone { actors queue.now ≡ 1 }
    requires opening { AreOpening (sleepers queue.now) cpu.old }
    requires fit { list_all (fits (sleepers queue.now)) batch.now.commands ≡ true }
    ensures cpu { ArePasses N.name N.book queue.now cpu.new }
    ensures text { IfOk result (λ bytes. bytes ≡ text (answers answering (sleepers queue.now) clock_opening batch.now.commands)) }
    ensures obeyed { IfOk result (λ _. AreObeyed (sleepers queue.now) batch.now.commands cpu.old cpu.new) }
{
    let mut page = Page::new(alloc);
    answer_all(rt, &mut page, queue, cpu, batch.commands())?;
    page.done()
}

/// Opens the sleep queue, answers a batch by it, and ends it.
fn answer_on<N: SleepName, R: Wait>(
    rt: &R,
    alloc: Global,
    fresh: SleepFresh,
    passes: Seq<SleepPasses>,
    mut back: Room<SleepPasses>,
    batch: &Batch<SleepCommand>,
) -> Result<(Seq<u8>, Closing), NoMemory>
    requires name { fresh.name ≡ record { service = N.name; book = N.book } }
    requires booted { IsBooted batch.now.count fresh passes }
    requires nothing { back.items ≡ [] }
    requires room { 1 ≤ back.spare }
    requires fit { AllFit sleep_language batch.now }
    ensures text { IfOk result (λ out. out.0 ≡ batch_text answering batch.now) }
    ensures end { IfOk result (λ out. IsEnd sleep_served batch.now out.1) }
{
    let queue = SleepQueue::<N>::open(alloc, fresh)?;
    let mut cpu = passes.into_vec().pop().unwrap();
    let text = text_of(rt, alloc, &queue, &mut cpu, batch);
    back.push(cpu);
    with_closing(text, queue.close(rt, back.into_seq()))
}

/// Room for the passes of one actor.
fn room_for_one(alloc: Global) -> Result<Room<SleepPasses>, NoMemory>
    ensures { IfOk result (λ room. (room.items ≡ []) × (1 ≤ room.spare)) }
{
    let mut room = Room::from_seq(Seq::new(alloc));
    room.reserve(1)?;
    Ok(room)
}

/// Answers a batch by a sleep queue of its own, which has no clients.
fn answer_batch<R: Wait>(
    rt: &R,
    alloc: Global,
    batch: &Batch<SleepCommand>,
) -> Result<(Seq<u8>, Closing), NoMemory>
    requires { AllFit sleep_language batch.now }
    ensures text { IfOk result (λ out. out.0 ≡ batch_text answering batch.now) }
    ensures end { IfOk result (λ out. IsEnd sleep_served batch.now out.1) }
{
    let back = room_for_one(alloc)?;
    let (fresh, passes) = SleepQueue::boot(alloc, batch.count(), 0)?;
    answer_on::<Brand, R>(rt, alloc, fresh, passes, back, batch)
}

/// What the command `sleep` writes for a text, and what is left of the service that answered it; or why the text is refused.
///
/// The service has one CPU, on which a `tick` scans, and a callout for each sleeper. The grammar is our own.
pub fn run_sleep<R: Wait>(
    rt: &R,
    alloc: Global,
    bytes: &[u8],
) -> Result<(Seq<u8>, Closing), ScriptFault>
    ensures text { GivesOrNoMemory (λ (out : List ℕ × ClosingView). out.0) result (sleep_text bytes.now) }
    ensures end { IfOk result (λ out. EndsRun bytes.now out.1) }
{
    let batch = read_batch(alloc, bytes)?;
    match answer_batch(rt, alloc, &batch) {
        Ok(out) => Ok(out),
        Err(_) => Err(ScriptFault::NoMemory),
    }
}
