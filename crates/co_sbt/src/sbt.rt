//! Times in units of 2^-32 second, after the kernel's `sbintime_t`.
ghost use Rattle.std.specs.Prelude.{◌≡◌, ◌≤◌, ◌<◌, ◌^◌, IfSome, IsNone};
ghost use Rattle.co_sbt.specs.Time.{IsTime, sat_add, hash, ticks_of, from_ticks};

use std::marker::Model;

/// A time, or a span of time: a whole number of units from 0 to 2^63 - 1, where 2^32 units are one second.
///
/// The unit is that of the kernel's `sbintime_t`; that no time is negative is our own decision. Times compare by their
/// numbers of units.
#[derive(Clone, Copy, Debug, PartialEq, Eq, PartialOrd, Ord)]
pub struct Sbt {
    raw: u64,
}

impl Model for Sbt {
    ghost use Rattle.std.specs.Prelude.{ℕ};
    ghost use Rattle.co_sbt.specs.Time.{IsTime};

    ghost Value = { ℕ };

    ghost view = { λ s. s.raw };

    ghost invariant = { λ s. IsTime s.raw };

    ghost inverse = { λ n. record { raw = n } };
}

impl Sbt {
    /// The time of no units, at which every clock begins.
    pub fn zero() -> Sbt
        ensures { result ≡ 0 }
    {
        Sbt { raw: 0 }
    }

    /// The time of `raw` units. None exactly where `raw` is 2^63 or more.
    pub fn new(raw: u64) -> Option<Sbt>
        ensures found { IfSome result (λ t. (t ≡ raw) × IsTime raw) }
        ensures none { IsNone result → 2 ^ 63 ≤ raw }
    {
        if raw < 0x8000_0000_0000_0000 {
            Some(Sbt { raw })
        } else {
            None
        }
    }

    /// The number of units, below 2^63.
    pub fn raw(&self) -> u64
        ensures units { result ≡ self.now }
        ensures bounded { IsTime result }
    {
        self.raw
    }

    /// The number of the bucket that the time lies in. A bucket is 2^24 units, 1/256 second, wide (our own decision).
    pub fn hash(self) -> u64
        ensures { result ≡ hash self }
    {
        self.raw / 0x100_0000
    }

    /// The sum of both, or the last time, 2^63 - 1 units, where the sum is later (our own decision).
    pub fn sat_add(self, d: Sbt) -> Sbt
        ensures { result ≡ sat_add self d }
    {
        let sum = self.raw + d.raw;
        if sum < 0x7fff_ffff_ffff_ffff {
            Sbt { raw: sum }
        } else {
            Sbt {
                raw: 0x7fff_ffff_ffff_ffff,
            }
        }
    }

    /// The span of a number of ticks, of which `hz` are a second, from 1 to 1000000. One tick is 2^32 div `hz` units, rounded
    /// down. A number that is not positive counts as 1, as callout(9) says of `callout_reset`.
    pub fn from_ticks(ticks: i32, hz: u32) -> Sbt
        requires low { 1 ≤ hz }
        requires high { hz ≤ 1000000 }
        ensures { result ≡ from_ticks ticks hz }
    {
        let tick = 0x1_0000_0000 / u64::from(hz);
        Sbt {
            raw: ticks_of(ticks) * tick,
        }
    }
}

/// The number of ticks that counts: 1 where it is not positive.
fn ticks_of(ticks: i32) -> u64
    ensures value { result ≡ ticks_of ticks }
    ensures bounded { result < 2 ^ 31 }
{
    if ticks > 0 { ticks as u64 } else { 1 }
}
