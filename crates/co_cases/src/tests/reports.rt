//! The reports of scripts by `steps`, and on threads by `run`, which are legal.
use crate::{Outcome, Turns, make, ordinary_script, read, read_in_turns};
use co_top::Status;
use std::process::Abort;
use std::sync::Wait;
use std::thread::Threads;

/// Whether a call is done, with a closing or not, and `check` calls what it wrote legal.
fn is_legal<R: AllocGlobal + Threads + Wait + Sync + Abort>(
    rt: &R,
    outcome: &Outcome,
    closed: bool,
) -> bool {
    let verdict = read(rt, "check", outcome.held.as_slice());
    let done = outcome.status == Status::Done && outcome.closed == closed;
    done && verdict.says(Status::Done, b"legal\n".as_slice()) && !verdict.closed
}

/// How many bytes the report of a command has, where it is legal, with a closing or not.
fn legal_len_of<R: AllocGlobal + Threads + Wait + Sync + Abort>(
    rt: &R,
    word: &str,
    script: &[u8],
    closed: bool,
) -> Option<usize> {
    let outcome = read_in_turns(rt, word, script, 4_000_000, None);
    let legal = is_legal(rt, &outcome, closed);
    legal.then_some(outcome.held.as_slice().len())
}

/// How many bytes the report of `steps` has, where it and that of `run` are legal, whichever way the actors interleaved.
fn legal_len<R: AllocGlobal + Threads + Wait + Sync + Abort>(
    rt: &R,
    script: &[u8],
) -> Option<usize> {
    match legal_len_of(rt, "run", script, true) {
        Some(_) => legal_len_of(rt, "steps", script, false),
        None => None,
    }
}

#[test]
fn ordinary_use(rt: HostRuntime) {
    let script = ordinary_script(&rt, rt.alloc());
    let len = legal_len(&rt, script.as_slice());
    assert!(rt; script.as_slice().len() == 44_317 && len == Some(434_782));
}

#[test]
fn generated(rt: HostRuntime) {
    let script = make(&rt, ["gen", "1"].as_slice(), 500_000);
    let text = script.held.as_slice();
    assert!(rt; script.status == Status::Done && text.len() == 459_440);
    assert!(rt; legal_len(&rt, text).is_some());
}

const THREADS: &str = "callout 1
cpus 2
funcs 1
timer 0 mpsafe
timer 1 mpsafe
func 0
pending me
client 0
reset 0 =1 f0 a0
pending 0
client 1
reset 1 =1 f0 a1 cpu 1
pending 1
cpu 0
tick 1
";

/// The second client calls while the first callout's function runs, so they are on two threads.
#[test]
fn threads(rt: HostRuntime) {
    let turns = Turns::new();
    let outcome = read_in_turns(&rt, "run", THREADS.as_bytes(), 4096, Some(&turns));
    assert!(rt; turns.are_over() && is_legal(&rt, &outcome, true));
}

/// A seed is a number, however it is written.
#[test]
fn soak_counts(rt: HostRuntime) {
    let line =
        b"soak 1 notes 33295 armed 4447 fired 1324 superseded 1761 stopped 1357 pending 5\n".as_slice();
    for seed in &["1", "00001"] {
        let outcome = make(&rt, ["soak", *seed].as_slice(), 200);
        assert!(rt; outcome.says(Status::Done, line));
    }
}
