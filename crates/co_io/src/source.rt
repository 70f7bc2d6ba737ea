//! Where bytes come from.
ghost use Rattle.std.specs.Prelude.{◌≤◌, ℕ, List, Option, length, IfOk, OnErr};
ghost use Rattle.std.specs.Io.KnownBytes.{ReadConsumes};
ghost use Rattle.co_io.specs.Counts.{Rose};

/// A read or a write failed. Why is not told.
#[derive(Clone, Copy, Debug, PartialEq, Eq, Drop)]
pub struct Failed;

/// Where bytes come from, piece by piece. Our own decision.
///
/// Contracts see of a source what is left of its bytes, where it tells them, and the count of its faults.
pub trait Source {
    // The bytes that were not read yet, where they are told.
    ghost left: { Self → Option (List ℕ) };

    // How many reads failed.
    ghost faults: { Self → ℕ };

    /// Reads some bytes into the front of `buf`, and tells how many: at most as many as `buf` has, and none only at the
    /// end or where `buf` is empty. Failed only where the faults rose, and then nothing was read.
    fn read(&mut self, buf: &mut [u8]) -> Result<usize, Failed>
        ensures bound { IfOk result (λ count. count ≤ length buf.new) }
        ensures bytes { ReadConsumes (left self.old) (left self.new) result buf.new }
        ensures faults { faults self.old ≤ faults self.new }
        ensures failed { OnErr result (Rose (faults self.old) (faults self.new)) };
}
