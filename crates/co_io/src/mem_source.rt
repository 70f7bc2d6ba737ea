//! A source in memory whose pieces are small and some of whose calls fail.
ghost use Rattle.std.specs.Prelude.{◌≡◌, ◌≤◌, ◌↔◌, length, min, Contains, IsErr, IfOk, OnErr, Some};
ghost use Rattle.std.specs.Io.KnownBytes.{ReadConsumes};
ghost use Rattle.co_io.specs.Counts.{counted, Rose};

use crate::calls::Calls;
use crate::quiet::QuietSource;
use crate::source::{Failed, Source};
use co_sbt::NoMemory;
use std::alloc::Global;
use std::marker::Model;

/// Bytes in memory, as a source that gives small pieces and some of whose calls fail.
#[derive(Drop)]
pub struct MemSource {
    rest: QuietSource,
    // The most bytes that a call gives.
    piece: usize,
    calls: Calls,
}

impl Model for MemSource {
    ghost use Rattle.co_io.specs.Memory.{Feed};
    ghost use Rattle.std.specs.Prelude.{◌≤◌};

    ghost Value = { Feed };

    ghost view = { λ s. record { left = s.rest; piece = s.piece; fails = s.calls.fails; calls = s.calls.made; faults = s.calls.faults } };

    ghost invariant = { λ s. 1 ≤ s.piece };
}

impl MemSource {
    /// A source of its own with these bytes, of which a call gives `piece` at most. The calls whose numbers, from 0,
    /// stand in `fails` fail. `NoMemory` where there is no room for the bytes or the numbers.
    pub fn new(
        alloc: Global,
        bytes: &[u8],
        piece: usize,
        fails: &[u64],
    ) -> Result<MemSource, NoMemory>
        requires { 1 ≤ piece }
        ensures { IfOk result (λ source. source ≡ record { left = bytes.now; piece = piece; fails = fails.now; calls = 0; faults = 0 }) }
    {
        let rest = QuietSource::new(alloc, bytes)?;
        let calls = Calls::new(alloc, fails)?;
        Ok(MemSource { rest, piece, calls })
    }
}

impl Source for MemSource {
    ghost left = { λ source. Some source.left };

    ghost faults = { λ source. source.faults };

    /// Fails exactly where the call's number stands in the list; gives as many bytes as there are, the piece has and
    /// `buf` has place for.
    fn read(&mut self, buf: &mut [u8]) -> Result<usize, Failed>
        ensures bound { IfOk result (λ count. count ≤ length buf.new) }
        ensures bytes { ReadConsumes (Some self.old.left) (Some self.new.left) result buf.new }
        ensures faults { self.old.faults ≤ self.new.faults }
        ensures failed { OnErr result (Rose self.old.faults self.new.faults) }

        ensures fails { IsErr result ↔ Contains self.old.fails self.old.calls }
        ensures count { IfOk result (λ count. count ≡ min (min (length buf.new) self.old.piece) (length self.old.left)) }
        ensures same { (self.new.piece ≡ self.old.piece) × (self.new.fails ≡ self.old.fails) }
        ensures calls { self.new.calls ≡ counted self.old.calls }
    {
        self.calls.next()?;
        let count = buf.len().min(self.piece);
        Ok(self.rest.give(&mut buf[..count]))
    }
}
