//! The top call.
ghost use Rattle.std.specs.Prelude.{◌≡◌, ℕ, List, MatchResult, Option, Some, None, map, string_bytes};
ghost use Rattle.std.specs.List.{concat};
ghost use Rattle.co_top.specs.declared.command.Command.TheVariants as commands;
ghost use Rattle.co_top.specs.declared.status.Status.TheVariants.{WriteFault};
ghost use Rattle.co_top.specs.Commands.{IsPlainCommand};
ghost use Rattle.co_top.specs.Headline.{IsHeadline, IsComplete, Says, limit_of, plain, served_limit};
ghost use Rattle.co_front.specs.Outside.{Output, outside, Tells};

use crate::answer::Answer;
use crate::command::{Command, Making, Reading, Serving, command_of, served};
use crate::making::text_of;
use crate::reading::answer_to;
use crate::serving::serve;
use crate::status::{Finish, Status};
use crate::texts::usage_text;
use co_hand::Gate;
use co_io::{ReadEnd, Sink, Source, WriteEnd, read_all, write_all, write_pieces};
use co_service::Closing;
use std::alloc::Global;
use std::sync::Wait;
use std::thread::Threads;

/// The most bytes of an input: of a script 64 MiB, of a report 256 MiB, of a text of events 16 MiB.
fn limit_of(reading: Reading) -> usize
    ensures { result ≡ limit_of reading }
{
    match reading {
        Reading::Steps => 67_108_864,
        Reading::Check => 268_435_456,
        Reading::Event => 16_777_216,
    }
}

/// The most bytes of an input of a command on a running service: of a script 64 MiB, of a text of commands 16 MiB.
fn served_limit(serving: Serving) -> usize
    ensures { result ≡ served_limit serving }
{
    match serving {
        Serving::Run => 67_108_864,
        Serving::Kq => 16_777_216,
        Serving::Sleep => 16_777_216,
        Serving::Itimer => 16_777_216,
    }
}

/// The status of a text that was written to its end, or else WriteFault.
fn told(status: Status, end: Result<(), WriteEnd>) -> Status
    ensures { MatchResult end (λ _. result ≡ status) (λ _. result ≡ WriteFault) }
{
    match end {
        Ok(()) => status,
        Err(_) => Status::WriteFault,
    }
}

/// Writes the text of a status: the answer is that status, or WriteFault where the sink failed.
fn write_text<K: Sink>(sink: &mut K, status: Status, text: &[u8]) -> Status
    ensures { let before : Output = record { held = K.held sink.old; room = K.room sink.old; faults = K.faults sink.old; idle = K.idle sink.old } in
        let after : Output = record { held = K.held sink.new; room = K.room sink.new; faults = K.faults sink.new; idle = K.idle sink.new } in
        Tells WriteFault status text.now before after result }
{
    told(status, write_all(sink, text))
}

/// Writes an answer, piece by piece: the result is its status, or WriteFault where the sink failed.
fn write_answer<K: Sink>(sink: &mut K, answer: &Answer) -> Status
    ensures { let before : Output = record { held = K.held sink.old; room = K.room sink.old; faults = K.faults sink.old; idle = K.idle sink.old } in
        let after : Output = record { held = K.held sink.new; room = K.room sink.new; faults = K.faults sink.new; idle = K.idle sink.new } in
        Tells WriteFault answer.now.status (concat answer.now.pieces) before after result }
{
    told(answer.status, write_pieces(sink, answer.pieces.as_slice()))
}

/// A command that reads, from the source to the sink.
fn read_and_answer<S: Source, K: Sink>(
    alloc: Global,
    reading: Reading,
    source: &mut S,
    sink: &mut K,
) -> Status
    ensures { let before = outside (S.left source.old) (S.faults source.old) (K.held sink.old) (K.room sink.old) (K.faults sink.old) (K.idle sink.old) in
        let after = outside (S.left source.new) (S.faults source.new) (K.held sink.new) (K.room sink.new) (K.faults sink.new) (K.idle sink.new) in
        Says before after (Some (commands.Read reading)) result None }
{
    let input = match read_all(alloc, source, limit_of(reading)) {
        Ok(input) => input,
        Err(ReadEnd::NoMemory) => return Status::NoMemory,
        Err(ReadEnd::Fault) => return Status::ReadFault,
    };
    match answer_to(alloc, reading, input.bytes) {
        Ok(answer) => write_answer(sink, &answer),
        Err(_) => Status::NoMemory,
    }
}

/// A command that makes its text, to the sink. It has no source.
fn make<K: Sink>(alloc: Global, making: Making, sink: &mut K) -> Status
    ensures { (left : Option (List ℕ)) (faults : ℕ) →
        Says (outside left faults (K.held sink.old) (K.room sink.old) (K.faults sink.old) (K.idle sink.old)) (outside left faults (K.held sink.new) (K.room sink.new) (K.faults sink.new) (K.idle sink.new)) (Some (commands.Make making)) result None }
{
    match text_of(alloc, making) {
        Ok(text) => write_text(sink, Status::Done, text.as_slice()),
        Err(_) => Status::NoMemory,
    }
}

/// The end of a call with this status alone.
fn without_closing(status: Status) -> Finish
    ensures { result ≡ plain status }
{
    Finish {
        status,
        closing: None,
    }
}

/// How a command on a running service ends that came to this closing: where the sink failed, there is none.
fn finished(status: Status, closing: Option<Closing>) -> Finish
    ensures status { result.status ≡ status }
    ensures kept { (status ≡ WriteFault → ⊥) → result.closing ≡ closing }
    ensures lost { status ≡ WriteFault → result.closing ≡ None }
{
    match status {
        Status::WriteFault => without_closing(status),
        _ => Finish { status, closing },
    }
}

/// A command on a running service, from the source to the sink.
fn serve_and_answer<S: Source, K: Sink, G: Gate + Sync, R: Threads + Wait + Sync>(
    rt: &R,
    alloc: Global,
    serving: Serving,
    source: &mut S,
    sink: &mut K,
    gate: &G,
) -> Finish
    ensures { let before = outside (S.left source.old) (S.faults source.old) (K.held sink.old) (K.room sink.old) (K.faults sink.old) (K.idle sink.old) in
        let after = outside (S.left source.new) (S.faults source.new) (K.held sink.new) (K.room sink.new) (K.faults sink.new) (K.idle sink.new) in
        Says before after (Some (commands.Serve serving)) result.status result.closing }
{
    let bytes = match read_all(alloc, source, served_limit(serving)) {
        Ok(input) => input.bytes,
        Err(ReadEnd::NoMemory) => return without_closing(Status::NoMemory),
        Err(ReadEnd::Fault) => return without_closing(Status::ReadFault),
    };
    match serve(rt, alloc, serving, bytes.as_slice(), gate) {
        Ok(served) => finished(write_answer(sink, &served.answer), served.closing),
        Err(_) => without_closing(Status::NoMemory),
    }
}

/// Does what the words say, from a source to a sink, and tells how it ended, for all words but those of a command that works
/// on a running service. It returns. Our own decision, the words and the texts too.
///
/// Usage comes exactly where the words are no command. Of a command ReadFault comes before BadScript, and that before the
/// work; nothing is written before the whole text is made. NoMemory may come at any command, and then nothing was written.
/// WriteFault comes only where a write failed, or took nothing and the sink had told too little room for the text, if any.
pub fn plain_main<S: Source, K: Sink>(
    alloc: Global,
    words: &[String],
    source: &mut S,
    sink: &mut K,
) -> Status
    requires plain { IsPlainCommand (map string_bytes words.now) }
    ensures headline { let before = outside (S.left source.old) (S.faults source.old) (K.held sink.old) (K.room sink.old) (K.faults sink.old) (K.idle sink.old) in
        let after = outside (S.left source.new) (S.faults source.new) (K.held sink.new) (K.room sink.new) (K.faults sink.new) (K.idle sink.new) in
        IsHeadline (map string_bytes words.now) before after (plain result) }
    ensures complete { let before = outside (S.left source.old) (S.faults source.old) (K.held sink.old) (K.room sink.old) (K.faults sink.old) (K.idle sink.old) in
        let after = outside (S.left source.new) (S.faults source.new) (K.held sink.new) (K.room sink.new) (K.faults sink.new) (K.idle sink.new) in
        IsComplete (map string_bytes words.now) before after result }
{
    match command_of(words) {
        None => write_text(sink, Status::Usage, usage_text()),
        Some(Command::Read(reading)) => read_and_answer(alloc, reading, source, sink),
        Some(Command::Serve(_)) => unreachable!(),
        Some(Command::Make(making)) => make(alloc, making, sink),
    }
}

/// Does what the words say, from a source to a sink, and tells how it ended: `run`, `kq`, `sleep` and `itimer` on a running
/// service, `run` on threads of `rt`, and each other command as [`plain_main`] does.
///
/// Of `run` the gate is called before each act of an actor. It may wait, for as long as the gate and the actors' calls of the service
/// do, and so may the others for a lock of their service; the clauses hold if it returns. A closing is there exactly where such a
/// command is done.
pub fn callout_main<S: Source, K: Sink, G: Gate + Sync, R: Threads + Wait + Sync>(
    rt: &R,
    alloc: Global,
    words: &[String],
    source: &mut S,
    sink: &mut K,
    gate: &G,
) -> Finish
    ensures headline { let before = outside (S.left source.old) (S.faults source.old) (K.held sink.old) (K.room sink.old) (K.faults sink.old) (K.idle sink.old) in
        let after = outside (S.left source.new) (S.faults source.new) (K.held sink.new) (K.room sink.new) (K.faults sink.new) (K.idle sink.new) in
        IsHeadline (map string_bytes words.now) before after result }
    ensures complete { let before = outside (S.left source.old) (S.faults source.old) (K.held sink.old) (K.room sink.old) (K.faults sink.old) (K.idle sink.old) in
        let after = outside (S.left source.new) (S.faults source.new) (K.held sink.new) (K.room sink.new) (K.faults sink.new) (K.idle sink.new) in
        IsComplete (map string_bytes words.now) before after result.status }
{
    match served(words) {
        Some(serving) => serve_and_answer(rt, alloc, serving, source, sink, gate),
        None => without_closing(plain_main(alloc, words, source, sink)),
    }
}
