//! Calls over ends that never fail.
ghost use Rattle.std.specs.Prelude.{Some, map, string_bytes};
ghost use Rattle.co_front.specs.Outside.{outside};
ghost use Rattle.co_cases.specs.WithinRoom.{IsAnsweredWithin, IsUsageWithin};

use crate::outcome::{Outcome, outcome_of, words_of};
use crate::turns::TurnGate;
use co_io::{QuietSink, QuietSource};
use co_top::{Finish, callout_main};
use std::alloc::Global;
use std::process::Abort;
use std::sync::Wait;
use std::thread::Threads;

/// A call over a source and a sink that never fail: where the sink has room for what the words may come to, it is answered, and
/// WriteFault does not come.
fn quiet_call<R: Threads + Wait + Sync>(
    rt: &R,
    alloc: Global,
    words: &[String],
    source: &mut QuietSource,
    sink: &mut QuietSink,
) -> Finish
    ensures answered { let before = outside (Some source.old) 0 (Some sink.old.held) (Some sink.old.room) 0 sink.old.idle in
        let after = outside (Some source.new) 0 (Some sink.new.held) (Some sink.new.room) 0 sink.new.idle in
        IsAnsweredWithin sink.old.room (map string_bytes words.now) before after result.status }
    ensures usage { IsUsageWithin sink.old.room (map string_bytes words.now) result.status }
{
    callout_main(rt, alloc, words, source, sink, &TurnGate(None))
}

/// A call with these words over these bytes, into so many bytes.
pub fn quiet<R: AllocGlobal + Threads + Wait + Sync + Abort>(
    rt: &R,
    words: &[&str],
    input: &[u8],
    room: usize,
) -> Outcome {
    let alloc = rt.alloc();
    let words = words_of(rt, alloc, words);
    let mut source = QuietSource::new(alloc, input).expect(rt, "no memory");
    let mut sink = QuietSink::new(alloc, room).expect(rt, "no memory");
    let finish = quiet_call(rt, alloc, words.as_slice(), &mut source, &mut sink);
    drop(words);
    drop(source);
    let outcome = outcome_of(rt, alloc, finish, sink.bytes());
    drop(sink);
    outcome
}
