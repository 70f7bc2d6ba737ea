//! A report that is read and replayed.
ghost use Rattle.std.specs.Prelude.{◌≡◌, [], List, IfOk};
ghost use Rattle.co_program.specs.Scripts.{IsScript};
ghost use Rattle.co_text.specs.Fallible.{GivesOrNoMemory};
ghost use Rattle.co_text.specs.declared.ScriptFault.TheVariants as fault;
ghost use Rattle.co_report.specs.declared.line.Line.{Line};
ghost use Rattle.co_report.specs.LineByLine.{IsReading, before_all, report_of_all, standing};
ghost use Rattle.co_report.specs.Reading.{report_read};
ghost use Rattle.co_check.specs.Hearing.{ComesTo, IsHeard};

use crate::heard::{HeardOf, Replayed};
use co_program::Script;
use co_report::{OpenReport, PackedLines, Reader, Subject, open_report};
use co_sbt::NoMemory;
use co_text::ScriptFault;
use std::alloc::Global;
use std::marker::{Brand, Model};

/// What a report says, in few bytes: a `Report` takes 168 for each note line, and this one some 30. Its histories were
/// replayed as it was read.
///
/// Contracts see the report. Our own decision.
#[derive(Drop)]
pub struct ReplayedReport {
    pub(crate) script: Script,
    pub(crate) lines: PackedLines,
    pub(crate) end: u64,
    pub(crate) replayed: Replayed,
}

impl Model for ReplayedReport {
    ghost use Rattle.co_report.specs.declared.line.Report.{Report};
    ghost use Rattle.co_check.specs.Hearing.{ComesTo};

    ghost Value = { Report };

    ghost view = { λ x. record { script = x.script; lines = x.lines; end = x.end } };

    ghost invariant = { λ x. ComesTo x.script x.lines x.replayed };
}

/// The lines of the histories, what they come to, and the number of the line `end`.
#[derive(Drop)]
struct Read {
    lines: PackedLines,
    replayed: Replayed,
    end: u64,
}

/// Want of memory, as a fault of the text.
fn no_memory(_fault: NoMemory) -> ScriptFault
    ensures { result ≡ fault.NoMemory }
{
    ScriptFault::NoMemory
}

/// What was heard, with the number of the line `end`.
fn read_of<S: Subject>(heard: HeardOf<'_, S>, end: u64) -> Read
    ensures end { result.end ≡ end }
    ensures read { (lines : List Line) → IsHeard S.script lines heard.entry.heard → (result.lines ≡ lines) × ComesTo S.script lines result.replayed }
{
    let (lines, replayed) = heard.heard.ended();
    Read {
        lines,
        replayed,
        end,
    }
}

/// What a reader's lines come to, for a listener that has heard none.
fn hear_all<S: Subject>(
    alloc: Global,
    heard: HeardOf<'_, S>,
    reader: &mut Reader<'_>,
) -> Result<Read, ScriptFault>
    requires reading { IsReading reader.old }
    requires heard { IsHeard S.script [] heard.heard }
    ensures read { GivesOrNoMemory (λ x. record { lines = x.lines; end = x.end }) result (standing reader.old).ahead }
    ensures replayed { IfOk result (λ x. ComesTo S.script x.lines x.replayed) }
{
    let mut heard = heard;
    match reader.tell_all(alloc, &mut heard) {
        Ok(end) => Ok(read_of(heard, end)),
        Err(fault) => Err(fault),
    }
}

/// What a reader's lines come to, of a type's script.
fn hear<S: Subject>(
    alloc: Global,
    script: &Script,
    reader: &mut Reader<'_>,
) -> Result<Read, ScriptFault>
    requires accepted { IsScript script.now }
    requires subject { script.now ≡ S.script }
    requires reading { IsReading reader.old }
    ensures read { GivesOrNoMemory (λ x. record { lines = x.lines; end = x.end }) result (standing reader.old).ahead }
    ensures replayed { IfOk result (λ x. ComesTo S.script x.lines x.replayed) }
{
    match HeardOf::<S>::open(alloc, script) {
        Ok(heard) => hear_all(alloc, heard, reader),
        Err(fault) => Err(no_memory(fault)),
    }
}

/// The histories of an open report of a type's script.
fn histories_of<S: Subject>(alloc: Global, report: &OpenReport) -> Result<Read, ScriptFault>
    requires { report.now.script ≡ S.script }
    ensures read { GivesOrNoMemory (λ x. record { lines = x.lines; end = x.end }) result (before_all report.now).ahead }
    ensures replayed { IfOk result (λ x. ComesTo report.now.script x.lines x.replayed) }
{
    match report.reader(alloc) {
        Ok(mut reader) => hear::<S>(alloc, report.script(), &mut reader),
        Err(fault) => Err(no_memory(fault)),
    }
}

/// The histories of an open report.
fn histories(alloc: Global, report: &OpenReport) -> Result<Read, ScriptFault>
    ensures read { GivesOrNoMemory (λ x. record { lines = x.lines; end = x.end }) result (before_all report.now).ahead }
    ensures replayed { IfOk result (λ x. ComesTo report.now.script x.lines x.replayed) }
{
    histories_of::<Brand>(alloc, report)
}

/// The report of a script and of its histories.
fn replayed_report(opened: OpenReport, read: Read) -> ReplayedReport
    requires { ComesTo opened.script read.lines read.replayed }
    ensures { result ≡ record { script = opened.entry.script; lines = read.lines; end = read.end } }
{
    let Read {
        lines,
        replayed,
        end,
    } = read;
    ReplayedReport {
        script: opened.into_script(),
        lines,
        end,
        replayed,
    }
}

/// The report that is open, with its histories.
fn read_histories(alloc: Global, opened: OpenReport) -> Result<ReplayedReport, ScriptFault>
    ensures { GivesOrNoMemory (λ r. r) result (report_of_all opened.entry.script (before_all opened.entry).ahead) }
{
    match histories(alloc, &opened) {
        Ok(read) => Ok(replayed_report(opened, read)),
        Err(fault) => Err(fault),
    }
}

/// The report that a text stands for, as `read_report` gives it, in few bytes; or the same refusal. Each line is replayed as
/// it is read.
pub fn read_replayed_report(alloc: Global, bytes: &[u8]) -> Result<ReplayedReport, ScriptFault>
    ensures { GivesOrNoMemory (λ r. r) result (report_read bytes.now) }
{
    let opened = open_report(alloc, bytes)?;
    read_histories(alloc, opened)
}
