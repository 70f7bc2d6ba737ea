//! Texts of the commands, and what each comes to.
use super::{event, itimer, kq, sleep};
use co_batch_text::itimer::run_itimer;
use co_batch_text::kq::run_kq;
use co_batch_text::sleep::run_sleep;
use co_event_text::run_event;
use co_sbt::Seq;
use co_service::Closing;
use co_text::{Cause, ScriptFault};
use std::alloc::Global;
use std::process::Abort;
use std::sync::Wait;

/// A command that answers line by line.
#[derive(Clone, Copy)]
enum Command {
    Event,
    Itimer,
    Kq,
    Sleep,
}

/// A text, and its answer or its first bad line with the first cause for which that is bad.
pub(crate) type Row = (&'static str, Result<&'static str, (u64, Cause)>);

const COMMANDS: &[(Command, &[Row])] = &[
    (Command::Event, event::texts::TEXTS),
    (Command::Itimer, itimer::texts::TEXTS),
    (Command::Kq, kq::texts::TEXTS),
    (Command::Sleep, sleep::texts::TEXTS),
];

/// The answer to a text, of what is told with the end of its service.
fn text_of(ran: Result<(Seq<u8>, Closing), ScriptFault>) -> Result<Seq<u8>, ScriptFault> {
    let (answer, closing) = ran?;
    drop(closing);
    Ok(answer)
}

/// What the command makes of the text.
fn answer_to<R: Wait>(
    rt: &R,
    alloc: Global,
    command: Command,
    text: &str,
) -> Result<Seq<u8>, ScriptFault> {
    let bytes = text.as_bytes();
    match command {
        Command::Event => run_event(alloc, bytes),
        Command::Itimer => text_of(run_itimer(rt, alloc, bytes)),
        Command::Kq => text_of(run_kq(rt, alloc, bytes)),
        Command::Sleep => text_of(run_sleep(rt, alloc, bytes)),
    }
}

/// Whether a text comes to what it has to.
pub(super) fn comes_to(
    answer: Result<Seq<u8>, ScriptFault>,
    wanted: Result<&str, (u64, Cause)>,
) -> bool {
    match answer {
        Ok(text) => {
            let same = matches!(wanted, Ok(wanted) if text.as_slice() == wanted.as_bytes());
            drop(text);
            same
        }
        Err(ScriptFault::Bad { line, cause }) => wanted == Err((line, cause)),
        Err(ScriptFault::NoMemory) => false,
    }
}

/// Stops where a text does not come to what it has to, and names it.
pub(super) fn is_right<R: Abort>(rt: &R, text: &str, right: bool) {
    assert!(rt; right, "{text}");
}

/// Each text comes to what its row says.
fn are_right<R: Abort + Wait>(rt: &R, alloc: Global, command: Command, rows: &[Row]) {
    for (text, wanted) in rows {
        let right = comes_to(answer_to(rt, alloc, command, text), *wanted);
        is_right(rt, text, right);
    }
}

#[test]
fn texts_are_answered_and_bad_lines_named_with_their_first_causes(rt: HostRuntime) {
    for (command, rows) in COMMANDS {
        are_right(&rt, rt.alloc(), *command, rows);
    }
}
