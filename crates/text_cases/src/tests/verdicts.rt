//! Reports of a script in which nobody does anything.
use super::is_right;
use co_check::laws::read_reports_may_be_checked;
use co_check::{Unfit, Verdict, check, check_replayed, read_replayed_report};
use co_object::{AnyEntry, OwnEntry, OwnKind, Place};
use co_report::{Line, OpenReport, PackedLines, open_report, read_report};
use std::alloc::Global;
use std::process::Abort;

/// The verdict on the report that a text is.
fn verdict_of<R: Abort>(rt: &R, alloc: Global, text: &[u8]) -> Verdict {
    let report = read_report(alloc, text).expect(rt, "no report");
    read_reports_may_be_checked();
    let verdict = check(alloc, &report).expect(rt, "no memory");
    drop(report);
    verdict
}

/// The verdict on the report that a text is, replayed as it is read.
fn replayed_verdict_of<R: Abort>(rt: &R, alloc: Global, text: &[u8]) -> Verdict {
    let Ok(report) = read_replayed_report(alloc, text) else {
        panic!(rt; "no report");
    };
    read_reports_may_be_checked();
    check_replayed(alloc, &report).expect(rt, "no memory")
}

const FOLLOWS: Verdict = Verdict::Not {
    line: 13,
    cause: Unfit::Follows,
};

/// Nothing happens, and a note of no act.
static VERDICTS: [(&str, Verdict); 2] = [
    (
        "callout-report 1\ncallout 1\nhz 1000\ncpus 1\nwheel 256\nfuncs 0\ntimer 0 mpsafe\ncpu 0\nhistories\n\
        timer 0\nwheel 0\nactor p0\nend\n",
        Verdict::Legal,
    ),
    (
        "callout-report 1\ncallout 1\nhz 1000\ncpus 1\nwheel 256\nfuncs 0\ntimer 0 mpsafe\ncpu 0\nhistories\n\
        timer 0\nwheel 0\nactor p0\n0 p0/0 notheld\nend\n",
        FOLLOWS,
    ),
];

#[test]
fn reports_are_judged(rt: HostRuntime) {
    for (text, verdict) in &VERDICTS {
        let found = verdict_of(&rt, rt.alloc(), text.as_bytes());
        is_right(&rt, text, found == *verdict);
        let found = replayed_verdict_of(&rt, rt.alloc(), text.as_bytes());
        is_right(&rt, text, found == *verdict);
    }
}

/// The only line of a list that has one.
fn only(lines: &PackedLines) -> Option<Line> {
    if lines.len() == 1 {
        Some(lines.line(0))
    } else {
        None
    }
}

/// How many note lines are told, the only one, and the number of the line `end`.
type Told = (usize, Option<Line>, u64);

/// What is told of an open report's notes as they are read.
fn told_of<R: Abort>(rt: &R, alloc: Global, report: &OpenReport<'_>) -> Told {
    let mut reader = report.reader(alloc).expect(rt, "no memory");
    let mut lines = PackedLines::new(alloc);
    let end = reader.tell_all(alloc, &mut lines).expect(rt, "a bad line");
    (lines.len(), only(&lines), end)
}

/// What is told of the report that a text is.
fn told<R: Abort>(rt: &R, alloc: Global, text: &[u8]) -> Told {
    let report = open_report(alloc, text).expect(rt, "no report");
    told_of(rt, alloc, &report)
}

/// The note of the second report above.
const NOT_HELD: Line = Line {
    line: 13,
    place: Place::Actor(0),
    number: 0,
    entry: AnyEntry::Own(OwnEntry {
        actor: 0,
        act: 0,
        kind: OwnKind::NotHeld,
    }),
};

#[test]
fn lines_are_told_as_they_are_read(rt: HostRuntime) {
    let [(nothing, _), (one, _)] = &VERDICTS;
    assert!(rt; told(&rt, rt.alloc(), nothing.as_bytes()) == (0, None, 13));
    assert!(rt; told(&rt, rt.alloc(), one.as_bytes()) == (1, Some(NOT_HELD), 14));
}
