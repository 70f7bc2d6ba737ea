//! One order of all notes of a report, which keeps each actor's numbers and each place's positions.
#![tactic(auto)]

mod board;
mod counts;
mod hints;
mod merge;
mod order;

pub use counts::raise;
pub use order::{Ordered, order_of};
