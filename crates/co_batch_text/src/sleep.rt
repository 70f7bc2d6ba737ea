//! The text of the command `sleep`: sleepers with timers, who are woken or whose time is up, and a clock that its ticks move.

mod answers;
mod command;
mod print;
mod said;

pub use answers::run_sleep;
pub use command::SleepCommand;
pub use print::{print_reply, print_ticked};
