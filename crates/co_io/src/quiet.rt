//! A source and a sink in memory that never fail.
ghost use Rattle.std.specs.Prelude.{◌≡◌, ◌++◌, ◌-◌, ◌<◌, ◌≤◌, [], Some, ℕ, List, length, take, min, IfOk, if◌then◌else◌, ◌&&◌, ◌==◌, nat_lt};
ghost use Rattle.co_io.specs.Counts.{counted};

use crate::sink::Sink;
use crate::source::{Failed, Source};
use co_sbt::{NoMemory, Seq};
use std::alloc::Global;
use std::marker::Model;

/// Bytes in memory, as a source that never fails. Contracts see the bytes that are left.
#[derive(Drop)]
pub struct QuietSource {
    bytes: Seq<u8>,
    // How many of them were read.
    at: usize,
}

impl Model for QuietSource {
    ghost use Rattle.std.specs.Prelude.{ℕ, List, drop, length, ◌≤◌};

    ghost Value = { List ℕ };

    ghost view = { λ s. drop s.at s.bytes };

    ghost invariant = { λ s. s.at ≤ length s.bytes };
}

impl QuietSource {
    /// A source of its own with these bytes. `NoMemory` where there is no room for them.
    pub fn new(alloc: Global, bytes: &[u8]) -> Result<QuietSource, NoMemory>
        ensures { IfOk result (λ source. source ≡ bytes.now) }
    {
        let bytes = Seq::copy_of(alloc, bytes)?;
        Ok(QuietSource { bytes, at: 0 })
    }

    // As many bytes as there are and `buf` has place for.
    pub(crate) fn give(&mut self, buf: &mut [u8]) -> usize
        ensures count { result ≡ min (length buf.new) (length self.old) }
        ensures bytes { self.old ≡ take result buf.new ++ self.new }
    {
        let rest = &self.bytes.as_slice()[self.at..];
        let count = buf.len().min(rest.len());
        buf[..count].copy_from_slice(&rest[..count]);
        self.at += count;
        count
    }
}

impl Source for QuietSource {
    ghost left = { λ source. Some source };

    ghost faults = { λ _. 0 };

    fn read(&mut self, buf: &mut [u8]) -> Result<usize, Failed> {
        Ok(self.give(buf))
    }
}

/// Room for some bytes in memory, as a sink that never fails. It takes none of a piece that is not empty exactly where
/// the room is used up.
#[derive(Drop)]
pub struct QuietSink {
    bytes: Vec<u8>,
    // How many more bytes it takes.
    room: usize,
    // How many writes took nothing.
    idle: u64,
}

impl Model for QuietSink {
    ghost use Rattle.std.specs.Prelude.{◌+◌, ◌≤◌, vec_len, vec_capacity};
    ghost use Rattle.co_io.specs.Memory.{Store};

    ghost Value = { Store };

    ghost view = { λ s. record { held = s.bytes.items; room = s.room; idle = s.idle } };

    ghost invariant = { λ s. vec_len s.bytes + s.room ≤ vec_capacity s.bytes };
}

impl QuietSink {
    /// An empty sink with room for `room` bytes. `NoMemory` where there is none for these.
    pub fn new(alloc: Global, room: usize) -> Result<QuietSink, NoMemory>
        ensures { IfOk result (λ sink. sink ≡ record { held = []; room = room; idle = 0 }) }
    {
        Ok(QuietSink {
            bytes: Vec::with_capacity(alloc, room)?,
            room,
            idle: 0,
        })
    }

    /// The bytes that were written.
    pub fn bytes(&self) -> &[u8]
        ensures { result.now ≡ self.now.held }
    {
        self.bytes.as_slice()
    }

    // Takes as many bytes as there is room for.
    pub(crate) fn take(&mut self, piece: &[u8]) -> usize
        ensures count { result ≡ min (length piece.now) self.old.room }
        ensures held { self.new.held ≡ self.old.held ++ take result piece.now }
        ensures room { self.new.room ≡ self.old.room - result }
        ensures idle { self.new.idle ≡ (if result == 0 && nat_lt 0 (length piece.now) then counted self.old.idle else self.old.idle) }
        ensures grows { self.old.idle ≤ self.new.idle }
    {
        let count = piece.len().min(self.room);
        match self.bytes.extend_from_slice(&piece[..count]) {
            Ok(()) => {}
            Err(_) => unreachable!(),
        }
        self.room -= count;
        if count == 0 && !piece.is_empty() {
            self.idle = self.idle.saturating_add(1);
        }
        count
    }
}

impl Sink for QuietSink {
    ghost held = { λ sink. Some sink.held };

    ghost room = { λ sink. Some sink.room };

    ghost faults = { λ _. 0 };

    ghost idle = { λ sink. sink.idle };

    fn write(&mut self, piece: &[u8]) -> Result<usize, Failed> {
        Ok(self.take(piece))
    }
}
