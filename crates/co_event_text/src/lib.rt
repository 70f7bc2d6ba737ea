//! The text of the command `event`: callouts that may fire within windows, and a clock that is programmed for as late a moment
//! as all of them allow.
#![tactic(auto)]

mod answers;
mod command;
pub mod laws;

pub use answers::run_event;
pub use command::EventCommand;
