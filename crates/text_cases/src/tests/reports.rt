//! Worked reports.
ghost use Rattle.std.specs.Prelude.{◌≡◌, ◌∷◌, []};

use super::{is_right, is_text};
use co_object::{AnyEntry, Lists, OwnEntry, OwnKind, Place};
use co_report::{Line, print_report, read_report};
use co_sbt::Seq;
use co_script::read_script;
use co_text::{Cause, ScriptFault};
use std::alloc::Global;
use std::process::Abort;

/// The lists of one actor that has no notes.
fn no_notes<R: Abort>(rt: &R, alloc: Global) -> Lists
    ensures { result ≡ [] ∷ [] }
{
    let mut lists = Seq::new(alloc);
    lists.push(Seq::new(alloc)).expect(rt, "no memory");
    lists
}

/// The report of the script that a text is, of one actor that makes no notes.
fn report_of_nobody<R: Abort>(rt: &R, alloc: Global, text: &[u8]) -> Seq<u8> {
    let script = read_script(alloc, text).expect(rt, "no script");
    let lists = no_notes(rt, alloc);
    let report = print_report(alloc, &script, &lists).expect(rt, "no memory");
    drop(lists);
    drop(script);
    report
}

#[test]
fn empty_run(rt: HostRuntime) {
    let wanted =
        b"callout-report 1\ncallout 1\nhz 1000\ncpus 1\nwheel 256\nfuncs 0\ntimer 0 mpsafe\ncpu 0\nhistories\n\
        timer 0\nwheel 0\nactor p0\nend\n"
            .as_slice();
    let script = b"callout 1\ntimer 0 mpsafe\n".as_slice();
    is_text(&rt, report_of_nobody(&rt, rt.alloc(), script), wanted);
}

/// Texts, and how many notes each has, with the number of the line `end`; or where it is no report the first bad line and its cause.
const TEXTS: &[(&str, Result<(usize, u64), (u64, Cause)>)] = &[
    // One firing, and nobody's notes.
    (
        "callout-report 1\ncallout 1\nhz 1000\ncpus 1\nwheel 256\nfuncs 1\ntimer 0 mpsafe\nfunc 0\nclient 0\n\
        reset 0 =u6442450944 f0 a7\ncpu 0\ntick u6442450944\nhistories\ntimer 0\n\
        0 c0/0 reset u6442450944 pr u0 f0 a7 cpu - = armed 0 #0 p0 off -\n\
        2 p0/0 pick #0 p0 u6442450944 = go f0 a7\n3 p0/0 end #0 p0 = ended drain - next - woke 0\nwheel 0\n\
        1 c0/0 insert i0 #0 u6442450944 = at u6442450944\n0 p0/0 scan u6442450944 = count 1\n\
        1 p0/0 pop = got i0 #0 u6442450944\n4 p0/0 free = freed\n5 p0/0 pop = empty\nactor c0\nactor p0\nend\n",
        Ok((8, 26)),
    ),
    (
        "callout-report 1\ncallout 1\nhz 1000\ncpus 1\nwheel 256\nfuncs 0\ntimer 0 mpsafe\ncpu 0\nhistories\n\
        timer 0\nwheel 0\nactor p0\nend\n",
        Ok((0, 13)),
    ),
    ("", Err((0, Cause::Version))),
    ("callout-report 2\nend", Err((2, Cause::Cut))),
    ("callout-report 01\n", Err((1, Cause::Version))),
    ("callout-report 1\nend\n", Err((0, Cause::Note))),
    (
        "callout-report 1\ncallout 1\nhz 0\nhistories\n",
        Err((3, Cause::Number)),
    ),
    (
        "callout-report 1\ncallout 1\ntimer 0 mpsafe\nhistories\n",
        Err((3, Cause::Form)),
    ),
    // Behind the line `histories`, which is line 9: a line too many, and too few.
    (
        "callout-report 1\ncallout 1\nhz 1000\ncpus 1\nwheel 256\nfuncs 0\ntimer 0 mpsafe\ncpu 0\nhistories\n\
        timer 0\nwheel 0\nactor p0\nend\nend\n",
        Err((14, Cause::Note)),
    ),
    (
        "callout-report 1\ncallout 1\nhz 1000\ncpus 1\nwheel 256\nfuncs 0\ntimer 0 mpsafe\ncpu 0\nhistories\n\
        timer 0\n",
        Err((11, Cause::Note)),
    ),
    (
        "callout-report 1\ncallout 1\nhz 1000\ncpus 1\nwheel 256\nfuncs 0\ntimer 0 mpsafe\ncpu 0\nhistories\n\
        timer 0\nactor p0\n",
        Err((11, Cause::Note)),
    ),
    // A code, a number, a callout and an actor that no note has.
    (
        "callout-report 1\ncallout 1\nhz 1000\ncpus 1\nwheel 256\nfuncs 0\ntimer 0 mpsafe\ncpu 0\nhistories\n\
        timer 0\n0 p0/0 stop = stopped -1 off -\n0 p0/0 stop = stopped -0 off -\n",
        Err((12, Cause::Note)),
    ),
    (
        "callout-report 1\ncallout 1\nhz 1000\ncpus 1\nwheel 256\nfuncs 0\ntimer 0 mpsafe\ncpu 0\nhistories\n\
        timer 0\n00 p0/0 stop = done\n",
        Err((11, Cause::Note)),
    ),
    (
        "callout-report 1\ncallout 1\nhz 1000\ncpus 1\nwheel 256\nfuncs 0\ntimer 0 mpsafe\ncpu 0\nhistories\n\
        timer 0\nwheel 0\n0 p0/0 remove i0 = off\n0 p0/0 remove i1 = off\n",
        Err((13, Cause::Note)),
    ),
    (
        "callout-report 1\ncallout 1\nhz 1000\ncpus 1\nwheel 256\nfuncs 0\ntimer 0 mpsafe\ncpu 0\nhistories\n\
        timer 0\nwheel 0\n0 p0/0 pop = empty\n0 h0/0 pop = empty\n",
        Err((13, Cause::Note)),
    ),
];

/// How many notes the report has that a text is, with the number of the line `end`; or the first bad line and its cause.
fn read_as(alloc: Global, text: &str) -> Option<Result<(usize, u64), (u64, Cause)>> {
    match read_report(alloc, text.as_bytes()) {
        Ok(report) => {
            let read = (report.lines.as_slice().len(), report.end);
            drop(report);
            Some(Ok(read))
        }
        Err(ScriptFault::Bad { line, cause }) => Some(Err((line, cause))),
        Err(ScriptFault::NoMemory) => None,
    }
}

#[test]
fn notes_are_counted_and_the_first_bad_line_is_named(rt: HostRuntime) {
    for (text, wanted) in TEXTS {
        is_right(&rt, text, read_as(rt.alloc(), text) == Some(*wanted));
    }
}

/// Line 16 says that the actor does not hold the lock.
const OWN_NOTE: Line = Line {
    line: 16,
    place: Place::Actor(0),
    number: 0,
    entry: AnyEntry::Own(OwnEntry {
        actor: 0,
        act: 0,
        kind: OwnKind::NotHeld,
    }),
};

#[test]
fn own_note_is_read(rt: HostRuntime) {
    let text =
        b"callout-report 1\ncallout 2\nhz 1000\ncpus 1\nwheel 256\nfuncs 0\nlock 0 mtx\ntimer 0 mtx 0\nclient 0\nstop 0\n\
        cpu 0\nhistories\ntimer 0\nwheel 0\nactor c0\n0 c0/0 notheld\nactor p0\nactor h0\nend\n";
    let report = read_report(rt.alloc(), text.as_slice()).expect(&rt, "no report");
    let has = report.lines.as_slice() == [OWN_NOTE].as_slice();
    drop(report);
    assert!(rt; has);
}
