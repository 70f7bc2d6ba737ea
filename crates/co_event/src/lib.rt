//! Event programming with precision: a callout may fire from its due time to its due time plus its precision, and the clock
//! is programmed for as late a moment as all of them allow.
#![tactic(auto)]

mod event_queue;
pub mod laws;
mod tournament;

pub use event_queue::{Armed, Event, EventQueue};
