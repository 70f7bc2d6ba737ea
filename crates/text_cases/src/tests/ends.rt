//! Sources and sinks, in memory and over readers and writers.
ghost use Rattle.std.specs.Prelude.{◌≡◌, ◌≤◌, ◌<◌, ◌^◌, ◌++◌, length, IsTrue, IfSome, OnOk};
ghost use Rattle.std.specs.Io.KnownBytes.{Appends};

use super::is_right;
use co_io::{
    FileSink, FileSource, MemSink, MemSource, QuietSink, QuietSource, ReadEnd, Sink, Source,
    WriteEnd, read_all, write_all, write_pieces,
};
use co_sbt::{NoMemory, Seq};
use std::alloc::Global;
use std::io::{self, ErrorKind, Read, Write};
use std::process::Abort;

// Whether these bytes are read up to a limit, and whether the source has more, or else why they are not.
fn gives<S: Source>(
    alloc: Global,
    source: &mut S,
    limit: usize,
    wanted: Result<(&[u8], bool), ReadEnd>,
) -> bool
    requires { limit < 2 ^ 62 }
{
    match read_all(alloc, source, limit) {
        Ok(input) => wanted == Ok((input.bytes.as_slice(), input.over)),
        Err(end) => wanted == Err(end),
    }
}

// A source in memory, and what is read of it.
struct Reading {
    bytes: &'static str,
    // How many bytes it gives at once, beside one.
    more: u8,
    // Which of its reads fail: where any does, so does the first reading.
    fails: &'static [u64],
    limit: u8,
    // What the next reading gives, and whether it is over the limit.
    read: &'static str,
    over: bool,
}

// Three bytes of which the second read fails, and five up to limits.
static READINGS: [Reading; 5] = [
    Reading {
        bytes: "abc",
        more: 0,
        fails: &[1],
        limit: 9,
        read: "bc",
        over: false,
    },
    Reading {
        bytes: "abcde",
        more: 1,
        fails: &[],
        limit: 6,
        read: "abcde",
        over: false,
    },
    Reading {
        bytes: "abcde",
        more: 1,
        fails: &[],
        limit: 5,
        read: "abcde",
        over: false,
    },
    Reading {
        bytes: "abcde",
        more: 1,
        fails: &[],
        limit: 4,
        read: "abcde",
        over: true,
    },
    Reading {
        bytes: "abcde",
        more: 1,
        fails: &[],
        limit: 0,
        read: "a",
        over: true,
    },
];

// Whether a source is read so.
fn is_read<R: Abort>(rt: &R, alloc: Global, row: &Reading) -> bool {
    let piece = usize::from(row.more) + 1;
    let mut source = MemSource::new(alloc, row.bytes.as_bytes(), piece, row.fails).expect(
        rt,
        "no memory",
    );
    let failed = row.fails.is_empty() || gives(alloc, &mut source, 9, Err(ReadEnd::Fault));
    let wanted = Ok((row.read.as_bytes(), row.over));
    let right = failed && gives(alloc, &mut source, usize::from(row.limit), wanted);
    drop(source);
    right
}

// A source is read up to one byte past the limit.
#[test]
fn sources_give_up_to_a_failure_and_the_limit(rt: HostRuntime) {
    for row in &READINGS {
        is_right(&rt, row.read, is_read(&rt, rt.alloc(), row));
    }
}

// Whether a write ends so, and the sink then has these bytes.
fn writes(sink: &mut MemSink, bytes: &[u8], end: Result<(), WriteEnd>, held: &[u8]) -> bool {
    write_all(sink, bytes) == end && sink.bytes() == held
}

// Whether a sink with room for two bytes fails at its second write, and is full then.
fn fails_and_is_full<R: Abort>(rt: &R, alloc: Global) -> bool {
    let mut sink = MemSink::new(alloc, 2, 1, &[1]).expect(rt, "no memory");
    let failed = writes(&mut sink, b"abc", Err(WriteEnd::Fault), b"a");
    let full = writes(&mut sink, b"bc", Err(WriteEnd::Stalled), b"ab");
    drop(sink);
    failed && full
}

// Three pieces, of which the second is empty.
fn three_pieces<R: Abort>(rt: &R, alloc: Global) -> Seq<Seq<u8>> {
    let mut pieces = Seq::new(alloc);
    for text in PIECES {
        let piece = Seq::copy_of(alloc, text.as_bytes()).expect(rt, "no memory");
        pieces.push(piece).expect(rt, "no memory");
    }
    pieces
}

const PIECES: &[&str] = &["ab", "", "cd"];

// Whether the pieces' write ends so into a sink with this room, which then has these bytes.
fn takes<R: Abort>(
    rt: &R,
    alloc: Global,
    room: usize,
    end: Result<(), WriteEnd>,
    held: &[u8],
) -> bool {
    let pieces = three_pieces(rt, alloc);
    let mut sink = MemSink::new(alloc, room, 9, &[]).expect(rt, "no memory");
    let right = write_pieces(&mut sink, pieces.as_slice()) == end && sink.bytes() == held;
    drop(pieces);
    drop(sink);
    right
}

#[test]
fn sinks_take_up_to_a_failure_and_their_room(rt: HostRuntime) {
    let alloc = rt.alloc();
    let all = takes(&rt, alloc, 9, Ok(()), b"abcd");
    let three = takes(&rt, alloc, 3, Err(WriteEnd::Stalled), b"abc");
    assert!(rt; all && three && fails_and_is_full(&rt, alloc));
}

// Pours a source of three bytes at most into a sink that has room for it: no fault comes between.
fn pour(alloc: Global, source: &mut QuietSource, sink: &mut QuietSink) -> Result<(), NoMemory>
    requires few { length source.old ≤ 3 }
    requires room { length source.old ≤ sink.old.room }
    ensures { OnOk result (sink.new.held ≡ sink.old.held ++ source.old) }
{
    match read_all(alloc, source, 3) {
        Ok(input) => match write_all(sink, input.bytes.as_slice()) {
            Ok(()) => Ok(()),
            Err(_) => unreachable!(),
        },
        Err(ReadEnd::NoMemory) => Err(NoMemory {}),
        Err(ReadEnd::Fault) => unreachable!(),
    }
}

// Copies a source into a sink, where it has no more bytes than the limit.
fn copy<S: Source, K: Sink>(alloc: Global, limit: usize, source: &mut S, sink: &mut K) -> bool
    requires { limit < 2 ^ 62 }
    ensures { IsTrue result → IfSome (S.left source.old) (Appends (K.held sink.old) (K.held sink.new)) }
{
    match read_all(alloc, source, limit) {
        Ok(input) => !input.over && write_all(sink, input.bytes.as_slice()).is_ok(),
        Err(_) => false,
    }
}

// Whether a sink with room for six bytes has three that are poured into it, and then three more that are copied.
fn takes_six<R: Abort>(rt: &R, alloc: Global) -> bool {
    let mut sink = QuietSink::new(alloc, 6).expect(rt, "no memory");
    let mut first = QuietSource::new(alloc, b"abc").expect(rt, "no memory");
    let poured = pour(alloc, &mut first, &mut sink).is_ok() && sink.bytes() == b"abc".as_slice();
    let mut second = MemSource::new(alloc, b"def", 1, &[]).expect(rt, "no memory");
    let copied = copy(alloc, 3, &mut second, &mut sink);
    let right = poured && copied && sink.bytes() == b"abcdef".as_slice();
    drop(first);
    drop(second);
    drop(sink);
    right
}

#[test]
fn quiet_ends_take_all(rt: HostRuntime) {
    assert!(rt; takes_six(&rt, rt.alloc()));
}

// A reader and a writer that always fail.
#[derive(Drop)]
struct Broken;

impl Read for Broken {
    fn read(&mut self, _buf: &mut [u8]) -> io::Result<usize> {
        Err(io::Error::from(ErrorKind::BrokenPipe))
    }
}

impl Write for Broken {
    fn write(&mut self, _buf: &[u8]) -> io::Result<usize> {
        Err(io::Error::from(ErrorKind::BrokenPipe))
    }

    fn flush(&mut self) -> io::Result<()> {
        Ok(())
    }
}

#[test]
fn readers_are_sources(rt: HostRuntime) {
    let mut source = FileSource::new(b"abc".as_slice());
    let given = gives(rt.alloc(), &mut source, 9, Ok((b"abc", false)));
    let mut broken = FileSource::new(Broken);
    assert!(rt; given && gives(rt.alloc(), &mut broken, 9, Err(ReadEnd::Fault)));
}

#[test]
fn writers_are_sinks(rt: HostRuntime) {
    let mut room = [0; 2];
    let full = write_all(&mut FileSink::new(room.as_mut_slice()), b"abc");
    let broken = write_all(&mut FileSink::new(Broken), b"abc");
    let ends = [full, broken] == [Err(WriteEnd::Stalled), Err(WriteEnd::Fault)];
    assert!(rt; ends && room == [b'a', b'b']);
}
