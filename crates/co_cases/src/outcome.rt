//! Calls of the program in memory.
ghost use Rattle.std.specs.Prelude.{◌≤◌};

use crate::turns::{TurnGate, Turns};
use co_io::{MemSink, MemSource};
use co_sbt::Seq;
use co_top::{Finish, Status, callout_main};
use std::alloc::Global;
use std::process::Abort;
use std::sync::Wait;
use std::thread::Threads;

/// What a call came to: its status, whether it has a closing, and the bytes that the sink holds then.
#[derive(Drop)]
pub struct Outcome {
    pub status: Status,
    pub closed: bool,
    pub held: Seq<u8>,
}

impl Outcome {
    /// Whether a call ended so, and the sink holds this text.
    pub fn says(&self, status: Status, text: &[u8]) -> bool {
        self.status == status && self.held.as_slice() == text
    }
}

/// The end of a call, after which the sink holds these bytes.
pub(crate) fn outcome_of(rt: &impl Abort, alloc: Global, finish: Finish, held: &[u8]) -> Outcome {
    Outcome {
        status: finish.status,
        closed: finish.closing.is_some(),
        held: Seq::copy_of(alloc, held).expect(rt, "no memory"),
    }
}

/// Words as a program gets them.
pub(crate) fn words_of(rt: &impl Abort, alloc: Global, words: &[&str]) -> Vec<String> {
    let mut copies = Vec::new(alloc);
    for word in words {
        let copy = String::from_str(alloc, word).expect(rt, "no memory");
        copies.push(copy).expect(rt, "no memory");
    }
    copies
}

// A call with these words over these ends, in these turns or in none.
fn call_in_turns<R: AllocGlobal + Threads + Wait + Sync + Abort>(
    rt: &R,
    words: &[&str],
    source: &mut MemSource,
    sink: &mut MemSink,
    turns: Option<&Turns>,
) -> Outcome {
    let alloc = rt.alloc();
    let words = words_of(rt, alloc, words);
    let gate = TurnGate(turns);
    let finish = callout_main(rt, alloc, words.as_slice(), source, sink, &gate);
    drop(words);
    outcome_of(rt, alloc, finish, sink.bytes())
}

/// The ends of a call in memory: what is read, and into how many bytes, of which a read gives and a write takes `piece` at most.
/// The reads and the writes whose numbers, from 0, stand there fail.
#[derive(Clone, Copy)]
pub struct Ends<'a> {
    pub input: &'a [u8],
    pub room: usize,
    pub piece: usize,
    pub read_fails: &'a [u64],
    pub write_fails: &'a [u64],
}

/// A call with these words over such ends, in these turns or in none.
pub fn call<R: AllocGlobal + Threads + Wait + Sync + Abort>(
    rt: &R,
    words: &[&str],
    ends: &Ends<'_>,
    turns: Option<&Turns>,
) -> Outcome
    requires { 1 ≤ ends.now.piece }
{
    let alloc = rt.alloc();
    let mut source = MemSource::new(alloc, ends.input, ends.piece, ends.read_fails).expect(
        rt,
        "no memory",
    );
    let mut sink = MemSink::new(alloc, ends.room, ends.piece, ends.write_fails).expect(
        rt,
        "no memory",
    );
    let outcome = call_in_turns(rt, words, &mut source, &mut sink, turns);
    drop(source);
    drop(sink);
    outcome
}

// The most bytes of a report in the tables.
const ROOM: usize = 4096;

/// A call of a command that reads, without a fault, into so many bytes.
pub fn read_in_turns<R: AllocGlobal + Threads + Wait + Sync + Abort>(
    rt: &R,
    word: &str,
    input: &[u8],
    room: usize,
    turns: Option<&Turns>,
) -> Outcome {
    let ends = Ends {
        input,
        room,
        piece: ROOM,
        read_fails: &[],
        write_fails: &[],
    };
    call(rt, [word].as_slice(), &ends, turns)
}

/// The same with the gate open, into the bytes of a report in the tables.
pub fn read<R: AllocGlobal + Threads + Wait + Sync + Abort>(
    rt: &R,
    word: &str,
    input: &[u8],
) -> Outcome {
    read_in_turns(rt, word, input, ROOM, None)
}

/// A call of a command that reads nothing, over a source that fails where it is read, into so many bytes.
pub fn make<R: AllocGlobal + Threads + Wait + Sync + Abort>(
    rt: &R,
    words: &[&str],
    room: usize,
) -> Outcome {
    let ends = Ends {
        input: b"unread".as_slice(),
        room,
        piece: ROOM,
        read_fails: &[0],
        write_fails: &[],
    };
    call(rt, words, &ends, None)
}
