//! All bytes of a source.
ghost use Rattle.std.specs.Prelude.{◌≡◌, ◌≤◌, ◌<◌, ◌+◌, ◌^◌, ◌↔◌, ℕ, List, false, length, IsTrue, IfOk, IfSome, OnErr};
ghost use Rattle.std.specs.Io.KnownBytes.{Consumes, IsAtEnd};
ghost use Rattle.co_io.specs.Counts.{Rose};

use crate::source::{Failed, Source};
use co_sbt::{NoMemory, Seq};
use std::alloc::Global;

/// What was read of a source.
#[derive(Drop, Debug)]
pub struct Input {
    /// The bytes, at most one more than the limit.
    pub bytes: Seq<u8>,
    /// Whether the source had more than the limit; what follows these bytes was not read.
    pub over: bool,
}

/// Why not all was read.
#[derive(Clone, Copy, Debug, PartialEq, Eq, Drop)]
pub enum ReadEnd {
    /// There was not enough memory for the bytes.
    NoMemory,
    /// A read of the source failed.
    Fault,
}

impl From<NoMemory> for ReadEnd {
    ghost use Rattle.std.specs.Prelude.{◌≡◌};
    ghost use Rattle.co_io.specs.declared.read.ReadEnd.TheVariants.{NoMemory as OutOfMemory};

    ghost from_gives = { λ _ end. end ≡ OutOfMemory };

    fn from(_: NoMemory) -> ReadEnd {
        ReadEnd::NoMemory
    }
}

// The most bytes that one read asks for.
const PIECE: usize = 65536;

/// Reads a source to its end, or one byte more than `limit`: `over` is true exactly where there are more than `limit`.
///
/// Fault only where the source's faults rose in this call. Each turn reads one byte at least, so it ends on every source.
pub fn read_all<S: Source>(alloc: Global, source: &mut S, limit: usize) -> Result<Input, ReadEnd>
    requires { limit < 2 ^ 62 }

    // The bytes come off the front of what was left, where that is told.
    ensures bytes { IfOk result (λ input. Consumes (S.left source.old) (S.left source.new) input.bytes) }
    ensures end { IfOk result (λ input. input.over ≡ false → IsAtEnd (S.left source.new)) }
    ensures whole { IfOk result (λ input. input.over ≡ false → IfSome (S.left source.old) (λ content. input.bytes ≡ content)) }

    ensures over { IfOk result (λ input. IsTrue input.over ↔ (limit < length input.bytes)) }
    ensures over_told { IfOk result (λ input. IfSome (S.left source.old) (λ content. IsTrue input.over ↔ (limit < length content))) }
    ensures most { IfOk result (λ input. length input.bytes ≤ limit + 1) }

    // After an error what was read is lost.
    ensures err { OnErr result ((lost : List ℕ) × Consumes (S.left source.old) (S.left source.new) lost) }

    ensures faults { S.faults source.old ≤ S.faults source.new }
    ensures fault { result ≡ Err ReadEnd.Fault → Rose (S.faults source.old) (S.faults source.new) }
{
    let mut piece = [0_u8; PIECE];
    let mut bytes = Seq::new(alloc);
    while bytes.as_slice().len() <= limit {
        let missing = limit + 1 - bytes.as_slice().len();
        let wanted = missing.min(PIECE);
        match source.read(&mut piece[..wanted]) {
            Ok(0) => return Ok(Input { bytes, over: false }),
            Ok(count) => bytes.extend_from_slice(&piece[..count])?,
            Err(Failed) => return Err(ReadEnd::Fault),
        }
    }
    Ok(Input { bytes, over: true })
}
