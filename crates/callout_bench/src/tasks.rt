//! What the words of a command ask for.
ghost use Rattle.std.specs.Prelude.{◌≤◌};
ghost use Rattle.co_program.specs.Scripts.{IsScript};
ghost use Rattle.co_queue.specs.Timers.{IsWheel};

use crate::failed::Failed;
use crate::queues::{self, Kind};
use crate::words::{buckets_of, calls_of, count_of, kind_of, number_of, time_of, where_of};
use crate::work::{Calls, Task, Where, Work};
use crate::{counter, hammer, input, lines, walk, world};
use co_io::Source;
use co_program::Script;
use co_sbt::{NoMemory, Sbt, Seq};
use co_text::Page;
use std::alloc::Global;
use std::sync::Wait;
use std::thread::Threads;

/// A run of a queue.
fn measure_queue(
    alloc: Global,
    page: &mut Page,
    kind: Kind,
    buckets: u32,
    work: &queues::Work,
) -> Result<(), NoMemory>
    requires some { 1 ≤ work.now.callouts }
    requires few { work.now.callouts ≤ 1024 }
    requires buckets { IsWheel buckets }
{
    let counts = queues::run(alloc, kind, buckets, work)?;
    lines::queue(page, kind, &counts)
}

/// A run of a queue, as the words say.
fn measure_queue_of(alloc: Global, page: &mut Page, words: &[String]) -> Result<(), Failed> {
    let [kind, callouts, buckets, armings, step] = words else {
        return Err(Failed::Words);
    };
    let (Some(kind), Some(callouts), Some(buckets), Some(armings), Some(step)) = (
        kind_of(kind),
        count_of(callouts, 1024),
        buckets_of(buckets),
        number_of(armings),
        time_of(step),
    ) else {
        return Err(Failed::Words);
    };
    let work = queues::Work {
        callouts,
        armings,
        step,
    };
    Failed::of(measure_queue(alloc, page, kind, buckets, &work))
}

/// A short run of a queue.
fn measure_briefly(alloc: Global, page: &mut Page, kind: Kind) -> Result<(), NoMemory> {
    let work = queues::Work {
        callouts: 64,
        armings: 4000,
        step: Sbt::from_ticks(1, 4096),
    };
    measure_queue(alloc, page, kind, 256, &work)
}

/// A run of threads: of these calls, or of what adds to counters.
fn measure_threads<R: Threads + Wait + Sync>(
    rt: &R,
    alloc: Global,
    page: &mut Page,
    what: &str,
    calls: Option<Calls>,
    work: &Work,
) -> Result<(), NoMemory>
    requires { (1 ≤ work.now.threads) × (work.now.threads ≤ 15) }
{
    let count = match calls {
        Some(calls) => hammer::run(rt, alloc, work, calls)?,
        None => counter::run(rt, alloc, work)?,
    };
    lines::threads(page, what, work, count)
}

/// A run of threads, as the words say.
fn measure_threads_of<R: Threads + Wait + Sync>(
    rt: &R,
    alloc: Global,
    page: &mut Page,
    words: &[String],
) -> Result<(), Failed> {
    let [what, at, threads, calls] = words else {
        return Err(Failed::Words);
    };
    let (Some(made), Some(at), Some(threads), Some(calls)) = (
        calls_of(what),
        where_of(at),
        count_of(threads, 15),
        number_of(calls),
    ) else {
        return Err(Failed::Words);
    };
    let work = Work { at, threads, calls };
    Failed::of(measure_threads(rt, alloc, page, what, made, &work))
}

/// Short runs of threads that meet there.
fn measure_meeting<R: Threads + Wait + Sync>(
    rt: &R,
    alloc: Global,
    page: &mut Page,
    at: Where,
) -> Result<(), NoMemory> {
    let work = Work {
        at,
        threads: 4,
        calls: 500,
    };
    measure_threads(rt, alloc, page, "service", Some(Calls::Told), &work)?;
    measure_threads(rt, alloc, page, "mutex", None, &work)
}

/// A script's walk.
fn measure_walk(alloc: Global, page: &mut Page, script: &Script) -> Result<(), NoMemory>
    requires { IsScript script.now }
{
    lines::count(page, walk::walk(alloc, script)?, b"notes")
}

/// A script's world, stepped.
fn measure_steps<R: Wait>(
    rt: &R,
    alloc: Global,
    page: &mut Page,
    script: &Script,
) -> Result<(), NoMemory>
    requires { IsScript script.now }
{
    lines::world(page, &world::walk(rt, alloc, script)?)
}

/// A short run of everything.
fn measure_all<R: Threads + Wait + Sync>(
    rt: &R,
    alloc: Global,
    page: &mut Page,
    script: &Script,
) -> Result<(), NoMemory>
    requires { IsScript script.now }
{
    measure_briefly(alloc, page, Kind::List)?;
    measure_briefly(alloc, page, Kind::Wheel)?;
    measure_walk(alloc, page, script)?;
    measure_steps(rt, alloc, page, script)?;
    measure_meeting(rt, alloc, page, Where::Apart)?;
    measure_meeting(rt, alloc, page, Where::One)
}

/// A task on a script.
fn measure_script<R: Threads + Wait + Sync>(
    rt: &R,
    alloc: Global,
    page: &mut Page,
    script: &Script,
    task: Task,
) -> Result<(), NoMemory>
    requires { IsScript script.now }
{
    match task {
        Task::Read => {
            let timers = script.timers.as_slice().len() as u64;
            lines::count(page, timers, b"timers")
        }
        Task::Walk => measure_walk(alloc, page, script),
        Task::Step => measure_steps(rt, alloc, page, script),
        Task::All => measure_all(rt, alloc, page, script),
    }
}

/// A task on the source's script.
fn measure_source<S: Source, R: Threads + Wait + Sync>(
    rt: &R,
    alloc: Global,
    source: &mut S,
    page: &mut Page,
    task: Task,
) -> Result<(), Failed> {
    let script = input::read(alloc, source)?;
    Failed::of(measure_script(rt, alloc, page, &script, task))
}

/// What is done with a script, as a first word and how many others stand behind it say.
fn task_of(what: &str, others: usize) -> Option<Task> {
    match (what, others) {
        ("walk", 0) => Some(Task::Walk),
        ("walk", 1) => Some(Task::Read),
        ("world", 0) => Some(Task::Step),
        _ => None,
    }
}

/// Runs what the words ask for.
fn measure<S: Source, R: Threads + Wait + Sync>(
    rt: &R,
    alloc: Global,
    source: &mut S,
    page: &mut Page,
    words: &[String],
) -> Result<(), Failed> {
    let Some((what, others)) = words.split_first() else {
        return measure_source(rt, alloc, source, page, Task::All);
    };
    match what.as_str() {
        "queues" => measure_queue_of(alloc, page, others),
        "service" => measure_threads_of(rt, alloc, page, others),
        _ => match task_of(what, others.len()) {
            Some(task) => measure_source(rt, alloc, source, page, task),
            None => Err(Failed::Words),
        },
    }
}

/// Runs what the words ask for, on the script of the source where it takes one. The answer is the text of what was counted.
pub fn text_of<S: Source, R: Threads + Wait + Sync>(
    rt: &R,
    alloc: Global,
    source: &mut S,
    words: &[String],
) -> Result<Seq<u8>, Failed> {
    let mut page = Page::new(alloc);
    match measure(rt, alloc, source, &mut page, words) {
        Ok(()) => Failed::of(page.done()),
        Err(failed) => Err(failed),
    }
}
