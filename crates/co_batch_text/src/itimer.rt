//! The text of the command `itimer`: interval timers over a service of one CPU.

mod answers;
mod command;

pub use answers::run_itimer;
pub use command::TimerCommand;
