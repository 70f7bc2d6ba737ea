//! The verdict on a report.
ghost use Rattle.std.specs.Prelude.{◌≡◌, ◌≤◌, ◌||◌, not, length, map, IfOk};
ghost use Rattle.co_program.specs.Actors.{actor_count};
ghost use Rattle.co_program.specs.Scripts.{IsScript};
ghost use Rattle.co_report.specs.PackedLines.{note_from_line};
ghost use Rattle.co_check.specs.Astray.{seen_lines};
ghost use Rattle.co_check.specs.Hearing.{ComesTo};
ghost use Rattle.co_check.specs.Index.{IsIndexed};
ghost use Rattle.co_check.specs.Lines.{AreLinesOf, IsReport, lines_max};
ghost use Rattle.co_check.specs.Numbers.{AreActorCounts};
ghost use Rattle.co_check.specs.Replayed.{fact_of};
ghost use Rattle.co_check.specs.Verdict.{verdict, verdict_at_end, verdict_by_numbers, verdict_by_programs, verdict_of};

use crate::fact::PackedFact;
use crate::heard::{Heard, Replayed};
use crate::index::{Index, Indexed, index_all};
use crate::replayed::ReplayedReport;
use crate::verdict::{Unfit, Verdict};
use crate::walk::{Walked, is_finished, walk};
use co_object::Note;
use co_program::{Script, actor_count};
use co_report::{Line, PackedLines, Report};
use co_sbt::NoMemory;
use std::alloc::Global;

/// The verdict on a report as it is read: Legal, or the first line that is wrong and what is wrong with it.
///
/// First each timer's and each CPU's history is replayed, line by line; then the notes' numbers are looked at; then each actor's
/// notes, beside its program; and at last whether each program has ended. The condition is that the script is an accepted one and
/// has what the lines name, that each entry is of the kind of its place, and that there are no more lines than a report of
/// 2^28 bytes can have: each report that `read_report` answers meets it (`laws::read_reports_may_be_checked`). NoMemory comes for
/// want of memory alone. The order and the causes are our own.
pub fn check(alloc: Global, report: &Report) -> Result<Verdict, NoMemory>
    requires { IsReport report.now }
    ensures { IfOk result (λ found. found ≡ verdict report.now) }
{
    let (lines, replayed) = replayed(alloc, &report.script, report.lines.as_slice())?;
    check_lines(alloc, &report.script, &lines, report.end, &replayed)
}

/// The verdict on a report that is replayed, as `check` gives it.
pub fn check_replayed(alloc: Global, report: &ReplayedReport) -> Result<Verdict, NoMemory>
    requires { IsReport report.now }
    ensures { IfOk result (λ found. found ≡ verdict report.now) }
{
    check_lines(
        alloc,
        &report.script,
        &report.lines,
        report.end,
        &report.replayed,
    )
}

/// The note that a line shows, with its number as the position.
fn note_in(line: &Line) -> Note
    ensures { result ≡ note_from_line line.now }
{
    Note {
        place: line.place,
        pos: line.number,
        entry: line.entry,
    }
}

/// These lines in few bytes, and what they come to.
fn replayed(
    alloc: Global,
    script: &Script,
    lines: &[Line],
) -> Result<(PackedLines, Replayed), NoMemory>
    requires { IsScript script.now }
    ensures { IfOk result (λ x. (x.0 ≡ lines.now) × ComesTo script.now lines.now x.1) }
{
    let mut heard = Heard::open(alloc, script)?;
    for line in lines {
        heard.take(line.line, &note_in(line))?;
    }
    Ok(heard.ended())
}

/// The verdict on the lines of a report, by what they come to.
fn check_lines(
    alloc: Global,
    script: &Script,
    lines: &PackedLines,
    end: u64,
    replayed: &Replayed,
) -> Result<Verdict, NoMemory>
    requires script { IsScript script.now }
    requires lines { AreLinesOf script.now lines.now }
    requires few { length lines.now ≤ lines_max }
    requires replayed { ComesTo script.now lines.now replayed.now }
    ensures { IfOk result (λ found. found ≡ verdict_of script.now lines.now end) }
{
    match replayed {
        Replayed::Fits { facts, counts } => {
            let facts = facts.as_slice();
            check_numbers(alloc, script, lines, end, facts, counts.as_slice())
        }
        Replayed::Bad { line, cause } => Ok(Verdict::Not {
            line: *line,
            cause: *cause,
        }),
    }
}

/// The verdict where the histories are possible.
fn check_numbers(
    alloc: Global,
    script: &Script,
    lines: &PackedLines,
    end: u64,
    facts: &[PackedFact],
    counts: &[u32],
) -> Result<Verdict, NoMemory>
    requires script { IsScript script.now }
    requires lines { AreLinesOf script.now lines.now }
    requires few { length lines.now ≤ lines_max }
    requires facts { facts.now ≡ map fact_of (seen_lines script.now lines.now) }
    requires counts { AreActorCounts (actor_count script.now) lines.now counts.now }
    ensures { IfOk result (λ found. found ≡ verdict_by_numbers script.now lines.now end) }
{
    match index_all(alloc, script, lines, counts)? {
        Indexed::Fits(index) => Ok(check_programs(script, lines, end, facts, &index)),
        Indexed::Bad { line } => Ok(Verdict::Not {
            line,
            cause: Unfit::Number,
        }),
    }
}

/// The verdict where the numbers are right too.
fn check_programs(
    script: &Script,
    lines: &PackedLines,
    end: u64,
    facts: &[PackedFact],
    index: &Index,
) -> Verdict
    requires script { IsScript script.now }
    requires few { length lines.now ≤ lines_max }
    requires facts { facts.now ≡ map fact_of (seen_lines script.now lines.now) }
    requires index { IsIndexed script.now lines.now lines.now index.now }
    ensures { result ≡ verdict_by_programs script.now lines.now end }
{
    let mut unfinished = false;
    for actor in 0..actor_count(script) {
        match walk(script, actor, index.row(actor), lines, facts) {
            Walked::Astray(line) => {
                return Verdict::Not {
                    line,
                    cause: Unfit::Follows,
                };
            }
            Walked::At(cursor) => {
                let finished = is_finished(script, actor, &cursor);
                unfinished = unfinished_after(unfinished, finished);
            }
        }
    }
    at_end(unfinished, end)
}

/// Whether an actor's program goes on, after one more.
fn unfinished_after(unfinished: bool, finished: bool) -> bool
    ensures { result ≡ (unfinished || not finished) }
{
    unfinished || !finished
}

/// The verdict where all notes are of their actors' programs.
fn at_end(unfinished: bool, end: u64) -> Verdict
    ensures { result ≡ verdict_at_end unfinished end }
{
    if unfinished {
        Verdict::Not {
            line: end,
            cause: Unfit::Missing,
        }
    } else {
        Verdict::Legal
    }
}
