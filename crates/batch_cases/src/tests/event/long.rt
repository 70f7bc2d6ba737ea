//! Texts that are too long.
use crate::tests::rows::{comes_to, is_right};
use co_event_text::run_event;
use co_sbt::Seq;
use co_text::Cause;
use std::alloc::Global;
use std::process::Abort;

/// The most commands that a text may have, and one.
const TOO_MANY: u32 = 262_145;

/// The most bytes that a text may have, and one.
const TOO_LONG: usize = 16_777_217;

/// Last lines behind all that there may be, and for which cause each is bad.
static LAST: [(&str, Cause); 2] = [("until 0.9\n", Cause::Falls), ("until 1\n", Cause::Many)];

/// A text with one command too many, which is this line.
fn long_text<R: Abort>(rt: &R, alloc: Global, last: &str) -> Seq<u8> {
    let mut text = Seq::copy_of(alloc, b"event 1\ntimers 1\n".as_slice()).expect(rt, "no memory");
    for _ in 1..TOO_MANY {
        text.extend_from_slice(b"until 1\n".as_slice())
            .expect(rt, "no memory");
    }
    text.extend_from_slice(last.as_bytes())
        .expect(rt, "no memory");
    text
}

/// Whether the line is refused as it has to be behind all that there may be.
fn is_last_refused<R: Abort>(rt: &R, alloc: Global, last: &str, cause: Cause) -> bool {
    let text = long_text(rt, alloc, last);
    let answer = run_event(alloc, text.as_slice());
    drop(text);
    comes_to(answer, Err((262_147, cause)))
}

/// Whether a text of a byte too many is refused.
fn is_size_refused(alloc: Global) -> bool {
    match vec![in alloc; b'\n'; TOO_LONG] {
        Ok(text) => comes_to(run_event(alloc, text.as_slice()), Err((0, Cause::Size))),
        Err(_) => false,
    }
}

// Long for `rt try`, short once it is built.
#[test]
fn long_texts_are_refused(rt: HostRuntime) {
    for (last, cause) in &LAST {
        is_right(&rt, last, is_last_refused(&rt, rt.alloc(), last, *cause));
    }
    assert!(rt; is_size_refused(rt.alloc()));
}
