//! Calls of the program in memory.

use crate::outcome::words_of;
use co_io::{MemSink, MemSource};
use co_view_top::{Status, view_main};
use std::alloc::Global;
use std::process::Abort;

/// A report that is read 32 bytes at a time, and what takes the text, of which it takes as much at a time.
#[derive(Drop)]
pub(super) struct Ends<'a> {
    pub(super) report: &'a str,
    /// The reads that fail.
    pub(super) read_fails: &'a [u64],
    /// How many bytes are taken.
    pub(super) room: usize,
    /// The writes that fail.
    pub(super) write_fails: &'a [u64],
}

/// Ends without a fault, with room for each text here.
pub(super) fn quiet(report: &str) -> Ends {
    Ends {
        report,
        read_fails: &[],
        room: 16_384,
        write_fails: &[],
    }
}

/// How a call with these words ends, and the sink with what it wrote. There is memory for them.
pub(super) fn view<R: Abort>(
    rt: &R,
    alloc: Global,
    words: &[&str],
    ends: &Ends,
) -> (Status, MemSink) {
    let words = words_of(rt, alloc, words);
    let mut source = MemSource::new(alloc, ends.report.as_bytes(), 32, ends.read_fails).expect(
        rt,
        "no memory",
    );
    let mut sink = MemSink::new(alloc, ends.room, 32, ends.write_fails).expect(rt, "no memory");
    let status = view_main(alloc, words.as_slice(), &mut source, &mut sink);
    drop(words);
    drop(source);
    (status, sink)
}

/// Whether a call with these words ends so, and writes this text.
pub(super) fn shows<R: Abort>(
    rt: &R,
    alloc: Global,
    words: &[&str],
    ends: &Ends,
    status: Status,
    text: &[u8],
) -> bool {
    let (ended, sink) = view(rt, alloc, words, ends);
    let shown = ended == status && sink.bytes() == text;
    drop(sink);
    shown
}

/// Words, a report, how the call ends, and what it writes.
pub(super) type Row = (&'static [&'static str], &'static str, Status, &'static str);

/// Each call of a table is as its row says.
pub(super) fn show_all<R: Abort>(rt: &R, alloc: Global, rows: &[Row]) {
    for (words, report, status, text) in rows {
        let shown = shows(rt, alloc, words, &quiet(report), *status, text.as_bytes());
        assert!(rt; shown, "{text}");
    }
}
