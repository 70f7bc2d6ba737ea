//! Each command over ends that never fail: with room for its text it is answered, and with a byte less the sink is full.
use crate::examples::{ONE_FIRING, ONE_FIRING_REPORT, THE_CODES_OF_STOP, THE_CODES_OF_STOP_REPORT};
use crate::quiet;
use co_top::Status;
use std::process::Abort;
use std::sync::Wait;
use std::thread::Threads;

/// The words of a call, what it reads, how it ends and what it writes.
type Row = (&'static [&'static str], &'static str, Status, &'static str);

/// A report of a CPU that has made no call, and has a note of one that its hold didn't cover.
const IDLE: &str = "callout-report 1
callout 1
hz 1000
cpus 1
wheel 256
funcs 0
timer 0 mpsafe
cpu 0
histories
timer 0
wheel 0
actor p0
0 p0/0 notheld
end
";

/// By command. Of `run` only the one client acts, so each run of the script has the same report.
static ANSWERED: [Row; 17] = [
    (&["steps"], ONE_FIRING, Status::Done, ONE_FIRING_REPORT),
    (
        &["steps"],
        ONE_FIRING_REPORT,
        Status::BadScript,
        "line 1: version\n",
    ),
    (
        &["run"],
        THE_CODES_OF_STOP,
        Status::Done,
        THE_CODES_OF_STOP_REPORT,
    ),
    (
        &["run"],
        THE_CODES_OF_STOP_REPORT,
        Status::BadScript,
        "line 1: version\n",
    ),
    (&["check"], ONE_FIRING_REPORT, Status::Done, "legal\n"),
    (&["check"], IDLE, Status::NotLegal, "line 13: follows\n"),
    (&["check"], "", Status::BadScript, "line 0: version\n"),
    // A script is no report.
    (
        &["check"],
        ONE_FIRING,
        Status::BadScript,
        "line 1: version\n",
    ),
    (
        &["soak", "1"],
        "",
        Status::Done,
        "soak 1 notes 33295 armed 4447 fired 1324 superseded 1761 stopped 1357 pending 5\n",
    ),
    (
        &["stop"],
        "",
        Status::Usage,
        "usage: callout steps | run | check | gen N | soak N | kq | sleep | itimer | event\n",
    ),
    (
        &["event"],
        "event 1\ntimers 2\narm 0 =1 pr 1\narm 1 =1.5 pr 2\nuntil 5\n",
        Status::Done,
        "armed 0 u4294967296\narmed 0 u6442450944\nevent u8589934592 2\nfired 0\nfired 1\nuntil u21474836480\n",
    ),
    (
        &["kq"],
        "kq 1\nknotes 2\nadd 7 1500 ms\ntick 1\ntick 1.5\ntick 9\nevents 4\nevents 4\n",
        Status::Done,
        "added\nticked 0\nticked 1\nticked 1\nevents 1\n7 2\nevents 0\n",
    ),
    (
        &["sleep"],
        "sleep 1\nsleepers 2\nsleep 0 7 1000\nsleep 1 7 0\nwakeup1 7\ntick 1\nawake 0\nawake 1\nwakeup 7\nawake 1\n",
        Status::Done,
        "began 0\nbegan 1\none 0\nticked 0 1\nwoken\nasleep\nwoke 1\nwoken\n",
    ),
    (
        &["itimer"],
        "itimer 1\nprocesses 1\nset 0 1 0\ntick 1\ntick 2\n",
        Status::Done,
        "was u0 u0\nticked 1\nticked 0\n",
    ),
    // What is no text of calls is refused, and no service begins.
    (
        &["kq"],
        "kq 1\nknots 2\n",
        Status::BadScript,
        "line 2: form\n",
    ),
    (
        &["sleep"],
        "sleep 1\nsleep 0 7 1\n",
        Status::BadScript,
        "line 2: form\n",
    ),
    (
        &["itimer"],
        "itimer 1\nget 0\n",
        Status::BadScript,
        "line 2: form\n",
    ),
];

/// Whether a call into so many bytes ends so and writes this text.
fn writes<R: AllocGlobal + Threads + Wait + Sync + Abort>(
    rt: &R,
    words: &[&str],
    input: &[u8],
    room: usize,
    status: Status,
    text: &[u8],
) -> bool {
    quiet(rt, words, input, room).says(status, text)
}

/// Whether a call ends so and writes this text, and the same call with too little room writes all but the last byte.
fn is_answered<R: AllocGlobal + Threads + Wait + Sync + Abort>(
    rt: &R,
    words: &[&str],
    input: &[u8],
    status: Status,
    text: &[u8],
) -> bool {
    let room = text.len().saturating_sub(1);
    let whole = writes(rt, words, input, text.len(), status, text);
    whole && writes(rt, words, input, room, Status::WriteFault, &text[..room])
}

#[test]
fn commands_are_answered(rt: HostRuntime) {
    for (words, input, status, text) in &ANSWERED {
        let answered = is_answered(&rt, words, input.as_bytes(), *status, text.as_bytes());
        assert!(rt; answered, "{input}");
    }
}

/// Of the text that `gen 1` writes, which has so many bytes.
#[test]
fn gen_is_answered(rt: HostRuntime) {
    let words = ["gen", "1"].as_slice();
    let script = quiet(&rt, words, &[], 459_440);
    let text = script.held.as_slice();
    assert!(rt; text.len() == 459_440 && is_answered(&rt, words, &[], Status::Done, text));
}
