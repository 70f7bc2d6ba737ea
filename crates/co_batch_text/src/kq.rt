//! The text of the command `kq`: timers of a kevent list over a service of one CPU.

mod answers;
mod command;

pub use answers::run_kq;
pub use command::KqCommand;
