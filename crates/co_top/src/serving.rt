//! The commands that work on a running service: what they make of the bytes that they read.
ghost use Rattle.std.specs.Prelude.{IfOk};
ghost use Rattle.std.specs.List.{concat};
ghost use Rattle.co_top.specs.Headline.{GivesServed};
ghost use Rattle.co_top.specs.declared.command.Serving.TheVariants as servings;

use crate::command::Serving;
use crate::running::run;
use crate::served::Served;
use co_batch_text::itimer::run_itimer;
use co_batch_text::kq::run_kq;
use co_batch_text::sleep::run_sleep;
use co_hand::Gate;
use co_sbt::NoMemory;
use std::alloc::Global;
use std::sync::Wait;
use std::thread::Threads;

/// What `kq` makes of these bytes.
fn kq<R: Wait>(rt: &R, alloc: Global, bytes: &[u8]) -> Result<Served, NoMemory>
    ensures { IfOk result (λ served. GivesServed servings.Kq bytes.now served.answer.status served.closing (concat served.answer.pieces)) }
{
    Served::of_batch(alloc, run_kq(rt, alloc, bytes))
}

/// What `sleep` makes of these bytes.
fn sleep<R: Wait>(rt: &R, alloc: Global, bytes: &[u8]) -> Result<Served, NoMemory>
    ensures { IfOk result (λ served. GivesServed servings.Sleep bytes.now served.answer.status served.closing (concat served.answer.pieces)) }
{
    Served::of_batch(alloc, run_sleep(rt, alloc, bytes))
}

/// What `itimer` makes of these bytes.
fn itimer<R: Wait>(rt: &R, alloc: Global, bytes: &[u8]) -> Result<Served, NoMemory>
    ensures { IfOk result (λ served. GivesServed servings.Itimer bytes.now served.answer.status served.closing (concat served.answer.pieces)) }
{
    Served::of_batch(alloc, run_itimer(rt, alloc, bytes))
}

/// What a command makes of the bytes that it read. `run` calls the gate before each act of an actor.
pub(crate) fn serve<G: Gate + Sync, R: Threads + Wait + Sync>(
    rt: &R,
    alloc: Global,
    serving: Serving,
    bytes: &[u8],
    gate: &G,
) -> Result<Served, NoMemory>
    ensures { IfOk result (λ served. GivesServed serving bytes.now served.answer.status served.closing (concat served.answer.pieces)) }
{
    match serving {
        Serving::Run => run(rt, alloc, bytes, gate),
        Serving::Kq => kq(rt, alloc, bytes),
        Serving::Sleep => sleep(rt, alloc, bytes),
        Serving::Itimer => itimer(rt, alloc, bytes),
    }
}
