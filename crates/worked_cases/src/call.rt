//! Calls of the program in memory.
use co_hand::OpenGate;
use co_io::{QuietSink, QuietSource};
use co_sbt::NoMemory;
use co_top::{Status, callout_main};
use std::alloc::Global;
use std::sync::Wait;
use std::thread::Threads;

/// More bytes than a report of the worked scripts has.
const ROOM: usize = 65_536;

/// One word, as a program gets it.
fn one_word(alloc: Global, word: &str) -> Result<Vec<String>, NoMemory> {
    let Ok(copy) = String::from_str(alloc, word) else {
        return Err(NoMemory {});
    };
    let mut words = Vec::new(alloc);
    match words.push(copy) {
        Ok(()) => Ok(words),
        Err(_) => Err(NoMemory {}),
    }
}

/// How a command of one word ends for an input. What it writes is in the sink then.
fn call<R: AllocGlobal + Threads + Wait + Sync>(
    rt: &R,
    word: &str,
    input: &[u8],
    sink: &mut QuietSink,
) -> Result<Status, NoMemory> {
    let alloc = rt.alloc();
    let mut source = QuietSource::new(alloc, input)?;
    let words = one_word(alloc, word)?;
    let finish = callout_main(rt, alloc, words.as_slice(), &mut source, sink, &OpenGate {});
    Ok(finish.status)
}

/// Whether a command of one word ends so for an input, and writes this text.
pub fn says<R: AllocGlobal + Threads + Wait + Sync>(
    rt: &R,
    word: &str,
    input: &[u8],
    status: Status,
    text: &[u8],
) -> bool {
    let Ok(mut sink) = QuietSink::new(rt.alloc(), ROOM) else {
        return false;
    };
    let ended = call(rt, word, input, &mut sink);
    let said = matches!(ended, Ok(ended) if ended == status) && sink.bytes() == text;
    drop(sink);
    said
}

/// Whether `check` calls the report legal.
pub fn is_legal<R: AllocGlobal + Threads + Wait + Sync>(rt: &R, report: &[u8]) -> bool {
    says(rt, "check", report, Status::Done, b"legal\n".as_slice())
}

/// Whether `run` writes a legal report for the script.
pub fn is_run<R: AllocGlobal + Threads + Wait + Sync>(rt: &R, script: &[u8]) -> bool {
    let Ok(mut sink) = QuietSink::new(rt.alloc(), ROOM) else {
        return false;
    };
    let ended = call(rt, "run", script, &mut sink);
    let run = matches!(ended, Ok(Status::Done)) && is_legal(rt, sink.bytes());
    drop(sink);
    run
}
