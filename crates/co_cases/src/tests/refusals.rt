//! What is refused, and how.
use crate::{make, read};
use co_top::Status;
use std::alloc::Global;
use std::process::Abort;
use std::sync::Wait;
use std::thread::Threads;

// Commands and scripts, with the line that is written of each.
static REFUSED: [(&str, &str, &str); 7] = [
    ("steps", "callout 1\ncpus 1\nwheel 24\n", "line 3: number\n"),
    (
        "steps",
        "callout 1\nfuncs 1\ntimer 0 mpsafe\nclient 0\nreset 0 =1.5 f0 a7\ncpu 0\ntick 1.5",
        "line 7: cut\n",
    ),
    (
        "steps",
        "callout 1\nfuncs 1\ntimer 0 mpsafe\nclient 0\nreset 0 =1.5 f0 a7\ncpu 0\ntick 1.5\ntick 1\n",
        "line 8: falls\n",
    ),
    (
        "steps",
        "callout 1\nfuncs 1\ntimer 0 mpsafe\nfunc 0\ndrain 0\nclient 0\nreset 0 =1.5 f0 a7\ncpu 0\ntick 1.5\n",
        "line 5: order\n",
    ),
    ("steps", "", "line 0: version\n"),
    ("steps", "callout 1\n", "line 0: timer\n"),
    ("run", "callout 1\n", "line 0: timer\n"),
];

// A script whose beginnings are scripts too where they end behind a line, from the timer's on. Their reports are among those of worked_cases.
const CANCELLED_WHILE_IT_WAITS: &str = r"callout 1
funcs 1
lock 0 mtx
timer 0 mtx 0
client 0
lock 0
reset 0 =1 f0 a0
stop 0
cpu 0
tick 1
turns c0*2 p0*3 c0
";

// How many bytes the lines up to the timer's have.
const TO_THE_TIMER: usize = 43;

// Whether the command refuses the script with this line, and has no closing.
fn is_refused<R: AllocGlobal + Threads + Wait + Sync + Abort>(
    rt: &R,
    word: &str,
    script: &[u8],
    line: &str,
) -> bool {
    let outcome = read(rt, word, script);
    outcome.says(Status::BadScript, line.as_bytes()) && !outcome.closed
}

// Whether `steps` of the script is done.
fn is_done<R: AllocGlobal + Threads + Wait + Sync + Abort>(rt: &R, script: &[u8]) -> bool {
    read(rt, "steps", script).status == Status::Done
}

#[test]
fn bad_scripts(rt: HostRuntime) {
    for (word, script, line) in &REFUSED {
        assert!(rt; is_refused(&rt, word, script.as_bytes(), line), "{line}");
    }
}

#[test]
fn too_long_an_input(rt: HostRuntime) {
    let input = vec![in rt.alloc(); b'#'; 67_108_865].expect(&rt, "no memory");
    assert!(rt; is_refused(&rt, "steps", input.as_slice(), "line 0: size\n"));
}

// A million lines, most of them comments, of which the last has no line feed.
fn million_lines(rt: &impl Abort, alloc: Global) -> Vec<u8> {
    let mut script = Vec::new(alloc);
    let front = script.extend_from_slice(b"callout 1\ntimer 0 mpsafe\n");
    front.expect(rt, "no memory");
    for _line in 2..999_999 {
        script.extend_from_slice(b"# x\n").expect(rt, "no memory");
    }
    let last = script.extend_from_slice(b"client 0");
    last.expect(rt, "no memory");
    script
}

#[test]
fn a_million_lines_cut_at_the_last(rt: HostRuntime) {
    let mut script = million_lines(&rt, rt.alloc());
    assert!(rt; is_refused(&rt, "steps", script.as_slice(), "line 1000000: cut\n"));
    script.push(b'\n').expect(&rt, "no memory");
    assert!(rt; is_done(&rt, script.as_slice()));
}

static NO_COMMANDS: [&[&str]; 9] = [
    &[],
    &["steps", "x"],
    &["check", "1"],
    &["gen"],
    &["gen", "-1"],
    &["gen", "18446744073709551616"],
    &["soak", "000000000000000000001"],
    &["soak", "1", "1"],
    &[""],
];

#[test]
fn words_that_are_no_command(rt: HostRuntime) {
    let usage =
        b"usage: callout steps | run | check | gen N | soak N | kq | sleep | itimer | event\n".as_slice();
    for words in &NO_COMMANDS {
        assert!(rt; make(&rt, words, 100).says(Status::Usage, usage));
    }
}

// What is written of a script that ends in the line behind so many.
static CUT: [&str; 11] = [
    "line 1: cut\n",
    "line 2: cut\n",
    "line 3: cut\n",
    "line 4: cut\n",
    "line 5: cut\n",
    "line 6: cut\n",
    "line 7: cut\n",
    "line 8: cut\n",
    "line 9: cut\n",
    "line 10: cut\n",
    "line 11: cut\n",
];

// How many lines a script has that end.
fn ended_lines(script: &[u8]) -> usize {
    let mut count: usize = 0;
    for byte in script {
        if *byte == b'\n' {
            count = count.saturating_add(1);
        }
    }
    count
}

// What is written of the first bytes of the script, where these are no script.
fn refusal(prefix: &[u8]) -> &'static str {
    match prefix.last() {
        None => "line 0: version\n",
        Some(b'\n') => "line 0: timer\n",
        Some(_) => CUT[ended_lines(prefix).min(10)],
    }
}

#[test]
fn beginnings_of_a_script(rt: HostRuntime) {
    let script = CANCELLED_WHILE_IT_WAITS.as_bytes();
    for end in 0..script.len() {
        let prefix = &script[..end];
        let is_right = if end >= TO_THE_TIMER && prefix.last() == Some(&b'\n') {
            is_done(&rt, prefix)
        } else {
            is_refused(&rt, "steps", prefix, refusal(prefix))
        };
        assert!(rt; is_right, "the first {end} bytes");
    }
}
