//! Where bytes go.
ghost use Rattle.std.specs.Prelude.{◌≡◌, ◌≤◌, ◌<◌, ℕ, List, Option, length, IfOk, OnErr, IfSome};
ghost use Rattle.std.specs.Io.KnownBytes.{WriteAppends};
ghost use Rattle.co_io.specs.Counts.{Rose};
ghost use Rattle.co_io.specs.Room.{WriteFills};

use crate::source::Failed;

/// Where bytes go, piece by piece. Our own decision.
///
/// Contracts see of a sink the bytes that it holds and its room, where it tells them, the count of its faults, and the
/// count of the writes that took nothing of a piece that was not empty.
pub trait Sink {
    // The bytes that were written, where they are told.
    ghost held: { Self → Option (List ℕ) };

    // How many more bytes there is room for, where that is told.
    ghost room: { Self → Option ℕ };

    // How many writes failed.
    ghost faults: { Self → ℕ };

    // How many writes took nothing of a piece that was not empty.
    ghost idle: { Self → ℕ };

    /// Takes some bytes off the front of `piece`, and tells how many. None of a piece that is not empty only where the
    /// idle writes rose, and never where the sink tells that it has room. Failed only where the faults rose, and then
    /// nothing was written.
    fn write(&mut self, piece: &[u8]) -> Result<usize, Failed>
        ensures bound { IfOk result (λ count. count ≤ length piece.now) }
        ensures bytes { WriteAppends (held self.old) (held self.new) result piece.now }
        ensures room { WriteFills (room self.old) (room self.new) result }
        ensures faults { faults self.old ≤ faults self.new }
        ensures failed { OnErr result (Rose (faults self.old) (faults self.new)) }

        // A write that takes nothing of a piece that is not empty.
        ensures idle { idle self.old ≤ idle self.new }
        ensures none_taken { result ≡ Ok 0 → 0 < length piece.now → Rose (idle self.old) (idle self.new) }
        ensures full { result ≡ Ok 0 → 0 < length piece.now → IfSome (room self.new) (λ bytes. bytes ≡ 0) }
        ensures idle_only { idle self.old < idle self.new → (result ≡ Ok 0) × (0 < length piece.now) };
}
