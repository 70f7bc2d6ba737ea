//! Callouts for programs on threads: clients arm and stop them through handles, and CPUs run what has come due.
#![tactic(auto)]

mod answers;
mod client;
mod cpu;
mod fresh;
mod lane;
mod log;
mod port;
mod posts;
mod rounds;
mod running;
mod serving;
mod timers;
mod turned;

pub use answers::{AsyncDrained, Drained, Refused, Reset, Stopped};
pub use client::Client;
pub use cpu::Cpu;
pub use fresh::TimersFresh;
pub use port::CpuPort;
pub use posts::Posts;
pub use timers::Timers;
pub use turned::{Round, Served, Turned};
