//! The top call: the words of a command, its input and its output.
#![tactic(auto)]

mod answer;
mod command;
pub mod laws;
mod making;
mod reading;
mod running;
mod served;
mod serving;
mod status;
mod texts;
mod top;
mod typed;

pub use command::{Command, Making, Reading, Serving};
pub use status::{Finish, Status};
pub use top::{callout_main, plain_main};
