//! The report that a text stands for.
ghost use Rattle.std.specs.Prelude.{◌≡◌, ◌≤◌, true, [], length};
ghost use Rattle.co_text.specs.Fallible.{GivesOrNoMemory};
ghost use Rattle.co_text.specs.Lines.{lines_of};
ghost use Rattle.co_script.specs.Reading.{script_of};
ghost use Rattle.co_script.specs.Canonical.{canonical};
ghost use Rattle.co_report.specs.LineByLine.{before_all, report_of_all};
ghost use Rattle.co_report.specs.Reading.{in_report, same_lines, report_read};

pub mod line_by_line;
pub mod places;
mod progress;
mod texts;

use crate::line::{Line, Report};
use co_program::Script;
use co_sbt::Seq;
use co_script::{print_script, read_script};
use co_text::ScriptFault;
use line_by_line::{OpenReport, open_report};
use std::alloc::Global;
use texts::{bad, no_memory, same_lines};

/// The script in a report, whose first line is line 2.
fn script_in_report(alloc: Global, text: &[u8]) -> Result<Script, ScriptFault>
    requires { length text.now ≤ 268435456 }
    ensures { GivesOrNoMemory (λ s. s) result (in_report (script_of text.now)) }
{
    match read_script(alloc, text) {
        Ok(script) => Ok(script),
        Err(ScriptFault::NoMemory) => Err(ScriptFault::NoMemory),
        Err(ScriptFault::Bad { line, cause }) => {
            if line == 0 {
                Err(bad(0, cause))
            } else {
                Err(bad(line + 1, cause))
            }
        }
    }
}

/// The text of the script is its canonical text.
fn is_canonical(alloc: Global, script: &Script, text: &[u8]) -> Result<(), ScriptFault>
    requires { length text.now ≤ 268435456 }
    ensures { GivesOrNoMemory (λ _. true) result (same_lines 2 (lines_of text.now) (lines_of (canonical script.now))) }
{
    match print_script(alloc, script) {
        Ok(wanted) => same_lines(text, wanted.as_slice()),
        Err(fault) => Err(no_memory(fault)),
    }
}

/// Appends all note lines of an opened report, and gives the number of the line `end` behind them.
fn add_lines(
    alloc: Global,
    report: &OpenReport<'_>,
    lines: &mut Seq<Line>,
) -> Result<u64, ScriptFault>
    requires { lines.old ≡ [] }
    ensures { GivesOrNoMemory (λ end. record { lines = lines.new; end = end }) result (before_all report.now).ahead }
{
    match report.reader(alloc) {
        Ok(mut reader) => reader.tell_all(alloc, lines),
        Err(fault) => Err(no_memory(fault)),
    }
}

/// An opened report with all its note lines.
fn all_of(alloc: Global, report: OpenReport<'_>) -> Result<Report, ScriptFault>
    ensures { GivesOrNoMemory (λ r. r) result (report_of_all report.entry.script (before_all report.entry).ahead) }
{
    let mut lines = Seq::new(alloc);
    let end = add_lines(alloc, &report, &mut lines)?;
    Ok(Report {
        script: report.into_script(),
        lines,
        end,
    })
}

/// The report that a text stands for: its script, each note line with its number and place, and the number of the line
/// `end`; or the first bad line, counted from 1, and the cause for which it is bad. Reports have one spelling, that of
/// `print_report`.
///
/// In this order: `Size` at line 0 where there are more than 268435456 bytes; `Cut` at the last line where it has no line
/// feed; `Version` at line 0 where there is no line, and at line 1 where this is not `callout-report 1`; `Note` at line 0
/// where no line is `histories`; the refusal of the script before that line, as `read_script` gives it, its line counted in
/// the report; `Form` at the first of its lines that is not the canonical text's; and `Note` at the first line behind
/// `histories` that may not stand there. The format is our own decision.
pub fn read_report(alloc: Global, bytes: &[u8]) -> Result<Report, ScriptFault>
    ensures { GivesOrNoMemory (λ r. r) result (report_read bytes.now) }
{
    all_of(alloc, open_report(alloc, bytes)?)
}
