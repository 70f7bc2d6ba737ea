//! What the words of a command say. Each call answers `None` where the word says none of it.
ghost use Rattle.std.specs.Prelude.{◌≤◌, IfSome};
ghost use Rattle.co_queue.specs.Timers.{IsWheel};

use crate::queues::Kind;
use crate::work::{Calls, Where};
use co_sbt::Sbt;
use co_text::number;

/// A whole number below 2^64.
pub fn number_of(word: &str) -> Option<u64> {
    match number(word.as_bytes()) {
        Ok(value) => u64::try_from(value).ok(),
        Err(_) => None,
    }
}

/// A number from 1 to `most`.
pub fn count_of(word: &str, most: u32) -> Option<u32>
    ensures { IfSome result (λ count. (1 ≤ count) × (count ≤ most)) }
{
    match number_of(word) {
        Some(value) if value >= 1 && value <= u64::from(most) => Some(value as u32),
        _ => None,
    }
}

/// A time in units of 2^-32 s.
pub fn time_of(word: &str) -> Option<Sbt> {
    match number_of(word) {
        Some(value) => Sbt::new(value),
        None => None,
    }
}

/// Which queue.
pub fn kind_of(word: &str) -> Option<Kind> {
    match word {
        "list" => Some(Kind::List),
        "wheel" => Some(Kind::Wheel),
        _ => None,
    }
}

/// A number of buckets that a wheel may have.
pub fn buckets_of(word: &str) -> Option<u32>
    ensures { IfSome result IsWheel }
{
    match word {
        "16" => Some(16),
        "256" => Some(256),
        "4096" => Some(4096),
        "65536" => Some(65536),
        _ => None,
    }
}

/// Which calls threads make of a service, where they make any: at `mutex` they add to counters.
pub fn calls_of(word: &str) -> Option<Option<Calls>> {
    match word {
        "service" => Some(Some(Calls::Told)),
        "notes" => Some(Some(Calls::Noted)),
        "moves" => Some(Some(Calls::Moved)),
        "shared" => Some(Some(Calls::Shared)),
        "mutex" => Some(None),
        _ => None,
    }
}

/// Where threads meet.
pub fn where_of(word: &str) -> Option<Where> {
    match word {
        "apart" => Some(Where::Apart),
        "one" => Some(Where::One),
        _ => None,
    }
}
