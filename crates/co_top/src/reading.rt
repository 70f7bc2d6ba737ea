//! The commands that read an input: what they make of its bytes.
ghost use Rattle.std.specs.Prelude.{◌≡◌, true, IfOk};
ghost use Rattle.std.specs.List.{concat};
ghost use Rattle.co_text.specs.Fallible.{GivesOrNoMemory};
ghost use Rattle.co_script.specs.Fits.{fits};
ghost use Rattle.co_report.specs.Reading.{report_read};
ghost use Rattle.co_check.specs.Lines.{IsReport};
ghost use Rattle.co_check.specs.Verdict.{verdict};
ghost use Rattle.co_top.specs.Headline.{Gives, IsJudged, IsReportOfWalk};
ghost use Rattle.co_top.specs.declared.command.Reading.TheVariants as readings;
ghost use Rattle.co_top.specs.declared.status.Status.TheVariants.{Done};

use crate::answer::{Answer, refused, whole};
use crate::command::Reading;
use crate::status::Status;
use crate::texts::{legal_text, unfit_word};
use co_check::{ReplayedReport, Verdict, check_replayed, read_replayed_report};
use co_core::tell_walk;
use co_event_text::run_event;
use co_front::fault_text;
use co_program::Script;
use co_report::{SectionsOf, Subject};
use co_sbt::{NoMemory, Seq};
use co_script::read_script;
use co_text::ScriptFault;
use std::alloc::Global;
use std::marker::Brand;

/// The report of a type's script, whose notes are printed as the walk makes them.
fn report_told<S: Subject>(alloc: Global, script: &Script) -> Result<Seq<Seq<u8>>, NoMemory>
    requires fits { fits script.now ≡ true }
    requires subject { script.now ≡ S.script }
    ensures { IfOk result (λ pieces. IsReportOfWalk script.now (concat pieces)) }
{
    let mut sections = SectionsOf::<S>::new(alloc, script)?;
    tell_walk(alloc, script, &mut sections)?;
    sections.pieces(alloc)
}

/// The report of a script's walk.
fn report_of_walk(alloc: Global, script: &Script) -> Result<Seq<Seq<u8>>, NoMemory>
    requires { fits script.now ≡ true }
    ensures { IfOk result (λ pieces. IsReportOfWalk script.now (concat pieces)) }
{
    report_told::<Brand>(alloc, script)
}

/// The report of a script's walk, as an answer.
fn walked(alloc: Global, script: &Script) -> Result<Answer, NoMemory>
    requires { fits script.now ≡ true }
    ensures status { IfOk result (λ answer. answer.status ≡ Done) }
    ensures report { IfOk result (λ answer. IsReportOfWalk script.now (concat answer.pieces)) }
{
    Ok(Answer {
        status: Status::Done,
        pieces: report_of_walk(alloc, script)?,
    })
}

/// What `steps` makes of these bytes.
fn steps(alloc: Global, bytes: &[u8]) -> Result<Answer, NoMemory>
    ensures { IfOk result (λ answer. Gives readings.Steps bytes.now answer.status (concat answer.pieces)) }
{
    match read_script(alloc, bytes) {
        Ok(script) => walked(alloc, &script),
        Err(ScriptFault::Bad { line, cause }) => refused(alloc, line, cause),
        Err(ScriptFault::NoMemory) => Err(NoMemory {}),
    }
}

/// The verdict on a report, as an answer.
fn judged(alloc: Global, report: &ReplayedReport) -> Result<Answer, NoMemory>
    requires { IsReport report.now }
    ensures { IfOk result (λ answer. IsJudged (verdict report.now) answer.status (concat answer.pieces)) }
{
    match check_replayed(alloc, report)? {
        Verdict::Legal => Ok(Answer {
            status: Status::Done,
            pieces: whole(alloc, Seq::copy_of(alloc, legal_text())?)?,
        }),
        Verdict::Not { line, cause } => Ok(Answer {
            status: Status::NotLegal,
            pieces: whole(alloc, fault_text(alloc, line, unfit_word(cause))?)?,
        }),
    }
}

/// The report that these bytes are. Their memory is free again before it is judged.
fn report_of(alloc: Global, bytes: Seq<u8>) -> Result<ReplayedReport, ScriptFault>
    ensures { GivesOrNoMemory (λ r. r) result (report_read bytes) }
{
    read_replayed_report(alloc, bytes.as_slice())
}

/// What `check` makes of these bytes.
fn check_report(alloc: Global, bytes: Seq<u8>) -> Result<Answer, NoMemory>
    ensures { IfOk result (λ answer. Gives readings.Check bytes answer.status (concat answer.pieces)) }
{
    match report_of(alloc, bytes) {
        Ok(report) => judged(alloc, &report),
        Err(ScriptFault::Bad { line, cause }) => refused(alloc, line, cause),
        Err(ScriptFault::NoMemory) => Err(NoMemory {}),
    }
}

/// What `event` makes of these bytes.
fn events(alloc: Global, bytes: &[u8]) -> Result<Answer, NoMemory>
    ensures { IfOk result (λ answer. Gives readings.Event bytes.now answer.status (concat answer.pieces)) }
{
    match run_event(alloc, bytes) {
        Ok(text) => Ok(Answer {
            status: Status::Done,
            pieces: whole(alloc, text)?,
        }),
        Err(ScriptFault::Bad { line, cause }) => refused(alloc, line, cause),
        Err(ScriptFault::NoMemory) => Err(NoMemory {}),
    }
}

/// What a command makes of the bytes that it read.
pub(crate) fn answer_to(alloc: Global, reading: Reading, bytes: Seq<u8>) -> Result<Answer, NoMemory>
    ensures { IfOk result (λ answer. Gives reading bytes answer.status (concat answer.pieces)) }
{
    match reading {
        Reading::Steps => steps(alloc, bytes.as_slice()),
        Reading::Check => check_report(alloc, bytes),
        Reading::Event => events(alloc, bytes.as_slice()),
    }
}
