//! The command `run`: what it makes of the bytes that it read.
ghost use Rattle.std.specs.Prelude.{◌≡◌, ℕ, List, Ok, true, IfOk};
ghost use Rattle.std.specs.List.{concat};
ghost use Rattle.co_script.specs.Fits.{fits};
ghost use Rattle.co_script.specs.Reading.{script_of};
ghost use Rattle.co_top.specs.Headline.{GivesServed, IsReportOfRun};
ghost use Rattle.co_top.specs.declared.command.Serving.TheVariants as servings;

use crate::served::Served;
use crate::typed::lists_are_typed;
use co_hand::Gate;
use co_program::Script;
use co_report::print_by_threads;
use co_run::{PackedRan, fitting_scripts_can_run, run_packed};
use co_sbt::{NoMemory, Seq};
use co_script::read_script_by_threads;
use co_service::Closing;
use co_text::ScriptFault;
use std::alloc::Global;
use std::sync::Wait;
use std::thread::Threads;

/// The report of a run, in pieces, and what is left of the service that the run's actors called.
#[derive(Drop)]
struct Report {
    pieces: Seq<Seq<u8>>,
    closing: Closing,
}

/// The report of a run of the script on threads.
fn report_of_run<G: Gate + Sync, R: Threads + Wait + Sync>(
    rt: &R,
    alloc: Global,
    script: &Script,
    gate: &G,
) -> Result<Report, NoMemory>
    requires { fits script.now ≡ true }
    ensures { IfOk result (λ report. IsReportOfRun script.now report.closing (concat report.pieces)) }
{
    fitting_scripts_can_run();
    let ran = run_packed(rt, alloc, script, gate)?;
    lists_are_typed(ran.lists.as_slice());
    let pieces = print_by_threads(rt, alloc, script, &ran.lists)?;
    let PackedRan { lists, closing } = ran;
    drop(lists);
    Ok(Report { pieces, closing })
}

/// The same, as what the command comes to.
fn reported<G: Gate + Sync, R: Threads + Wait + Sync>(
    rt: &R,
    alloc: Global,
    script: &Script,
    gate: &G,
) -> Result<Served, NoMemory>
    requires { fits script.now ≡ true }
    ensures { (bytes : List ℕ) → script_of bytes ≡ Ok script.now → IfOk result (λ served. GivesServed servings.Run bytes served.answer.status served.closing (concat served.answer.pieces)) }
{
    let report = report_of_run(rt, alloc, script, gate)?;
    Ok(Served::done(report.pieces, report.closing))
}

/// What `run` makes of these bytes.
pub(crate) fn run<G: Gate + Sync, R: Threads + Wait + Sync>(
    rt: &R,
    alloc: Global,
    bytes: &[u8],
    gate: &G,
) -> Result<Served, NoMemory>
    ensures { IfOk result (λ served. GivesServed servings.Run bytes.now served.answer.status served.closing (concat served.answer.pieces)) }
{
    match read_script_by_threads(rt, alloc, bytes) {
        Ok(script) => reported(rt, alloc, &script, gate),
        Err(ScriptFault::Bad { line, cause }) => Served::refused(alloc, line, cause),
        Err(ScriptFault::NoMemory) => Err(NoMemory {}),
    }
}
