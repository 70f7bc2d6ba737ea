//! Which line has a note.
ghost use Rattle.std.specs.Prelude.{◌≡◌, ◌+◌, ◌<◌, ◌^◌, Some, None};

use std::marker::Model;

/// Which line has a note, if one does, in 4 bytes.
///
/// Contracts see an option.
#[derive(Clone, Copy, Drop)]
pub(crate) struct Slot {
    /// The index of the line and 1, or 0 for none.
    above: u32,
}

impl Model for Slot {
    ghost use Rattle.std.proofs.Common.{ap};
    ghost use Rattle.std.specs.Prelude.{ℕ, Option};
    ghost use Rattle.co_check.specs.Slots.{above_of, slot_back, slot_in};

    ghost Value = { Option ℕ };

    ghost view = { λ x. slot_in x.above };

    ghost inverse = { λ slot. record { above = above_of slot } };

    ghost inverse_ok = { λ x _. ap (λ above. record { above = above }) (slot_back x.above) };
}

impl Slot {
    /// No line.
    pub(crate) fn free() -> Slot
        ensures { result ≡ None }
    {
        Slot { above: 0 }
    }

    /// The line at this index.
    pub(crate) fn taken(line: u32) -> Slot
        requires { line + 1 < 2 ^ 32 }
        ensures { result ≡ Some line }
    {
        Slot { above: line + 1 }
    }

    /// The index of the line.
    pub(crate) fn line(&self) -> Option<u32>
        ensures { result ≡ self.now }
    {
        if self.above == 0 {
            None
        } else {
            Some(self.above - 1)
        }
    }
}
