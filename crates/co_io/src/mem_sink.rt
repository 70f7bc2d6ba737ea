//! A sink in memory that takes small pieces and some of whose calls fail.
ghost use Rattle.std.specs.Prelude.{◌≡◌, ◌≤◌, ◌<◌, ◌↔◌, [], length, min, Contains, IsErr, IfOk, OnErr, Some};
ghost use Rattle.std.specs.Io.KnownBytes.{WriteAppends};
ghost use Rattle.co_io.specs.Counts.{counted, Rose};
ghost use Rattle.co_io.specs.Room.{WriteFills};

use crate::calls::Calls;
use crate::quiet::QuietSink;
use crate::sink::Sink;
use crate::source::Failed;
use co_sbt::NoMemory;
use std::alloc::Global;
use std::marker::Model;

/// Room for some bytes in memory, as a sink that takes small pieces and some of whose calls fail.
#[derive(Drop)]
pub struct MemSink {
    sink: QuietSink,
    // The most bytes that a call takes.
    piece: usize,
    calls: Calls,
}

impl Model for MemSink {
    ghost use Rattle.co_io.specs.Memory.{FaultyStore};
    ghost use Rattle.std.specs.Prelude.{◌≤◌};

    ghost Value = { FaultyStore };

    ghost view = { λ s. record { held = s.sink.held; room = s.sink.room; idle = s.sink.idle; piece = s.piece; fails = s.calls.fails; calls = s.calls.made; faults = s.calls.faults } };

    ghost invariant = { λ s. 1 ≤ s.piece };
}

impl MemSink {
    /// An empty sink with room for `room` bytes, of which a call takes `piece` at most. The calls whose numbers, from
    /// 0, stand in `fails` fail. `NoMemory` where there is no room for the bytes or the numbers.
    pub fn new(alloc: Global, room: usize, piece: usize, fails: &[u64]) -> Result<MemSink, NoMemory>
        requires { 1 ≤ piece }
        ensures { IfOk result (λ sink. sink ≡ record { held = []; room = room; idle = 0; piece = piece; fails = fails.now; calls = 0; faults = 0 }) }
    {
        let sink = QuietSink::new(alloc, room)?;
        let calls = Calls::new(alloc, fails)?;
        Ok(MemSink { sink, piece, calls })
    }

    /// The bytes that were written.
    pub fn bytes(&self) -> &[u8]
        ensures { result.now ≡ self.now.held }
    {
        self.sink.bytes()
    }
}

impl Sink for MemSink {
    ghost held = { λ sink. Some sink.held };

    ghost room = { λ sink. Some sink.room };

    ghost faults = { λ sink. sink.faults };

    ghost idle = { λ sink. sink.idle };

    /// Fails exactly where the call's number stands in the list; takes as many bytes as `piece` has, a call takes and
    /// there is room for.
    fn write(&mut self, piece: &[u8]) -> Result<usize, Failed>
        ensures bound { IfOk result (λ count. count ≤ length piece.now) }
        ensures bytes { WriteAppends (Some self.old.held) (Some self.new.held) result piece.now }
        ensures room { WriteFills (Some self.old.room) (Some self.new.room) result }
        ensures faults { self.old.faults ≤ self.new.faults }
        ensures failed { OnErr result (Rose self.old.faults self.new.faults) }
        ensures idle { self.old.idle ≤ self.new.idle }
        ensures none_taken { result ≡ Ok 0 → 0 < length piece.now → Rose self.old.idle self.new.idle }
        ensures full { result ≡ Ok 0 → 0 < length piece.now → self.new.room ≡ 0 }
        ensures idle_only { self.old.idle < self.new.idle → (result ≡ Ok 0) × (0 < length piece.now) }

        ensures fails { IsErr result ↔ Contains self.old.fails self.old.calls }
        ensures count { IfOk result (λ count. count ≡ min (min (length piece.now) self.old.piece) self.old.room) }
        ensures same { (self.new.piece ≡ self.old.piece) × (self.new.fails ≡ self.old.fails) }
        ensures calls { self.new.calls ≡ counted self.old.calls }
    {
        self.calls.next()?;
        let count = piece.len().min(self.piece);
        Ok(self.sink.take(&piece[..count]))
    }
}
