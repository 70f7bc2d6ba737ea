//! What the lines of its place say of a line.
ghost use Rattle.std.specs.Prelude.{◌≡◌, ◌<◌, ◌^◌};

use std::marker::Model;

/// What the lines of its place say of a line, up to it, in 4 bytes: whether its callout stands in a queue once the note is
/// made, and how many Scans stand above it in its CPU's journal.
///
/// Contracts see both facts.
#[derive(Drop)]
pub(crate) struct PackedFact {
    /// Twice the number of Scans, and 1 more where the callout stands in a queue.
    bits: u32,
}

impl Model for PackedFact {
    ghost use Rattle.co_check.specs.Facts.{Fact, fact_in};

    ghost Value = { Fact };

    ghost view = { λ x. fact_in x.bits };
}

impl PackedFact {
    /// These two facts.
    pub(crate) fn new(listed: bool, scans: u32) -> PackedFact
        requires { scans < 2 ^ 31 }
        ensures { result ≡ record { listed = listed; scans = scans } }
    {
        PackedFact {
            bits: scans * 2 + u32::from(listed),
        }
    }

    /// Whether the callout stands in a queue.
    pub(crate) fn listed(&self) -> bool
        ensures { result ≡ self.now.listed }
    {
        self.bits % 2 == 1
    }

    /// How many Scans stand above.
    pub(crate) fn scans(&self) -> u32
        ensures { result ≡ self.now.scans }
    {
        self.bits / 2
    }
}
