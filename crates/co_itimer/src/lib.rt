//! Interval timers over the running service: each process has one, which raises its alarm.
#![tactic(auto)]

mod book;
mod fresh;
mod itimers;
pub mod laws;
mod serving;
mod timer;

pub use fresh::ItimersFresh;
pub use itimers::Itimers;
pub use timer::Itimerval;
