//! Worked texts and calls.
//!
//! What is let go at the end of a function is let go by a call: else its drop, field by field, is a part of the function's own proof.

use co_sbt::Sbt;

mod event;
mod itimer;
mod kq;
mod rows;
mod single;
mod sleep;

/// The time of `count` halves of a second.
fn halves(count: i32) -> Sbt {
    Sbt::from_ticks(count, 2)
}
