//! Runs on threads.
#![tactic(auto)]

mod actor;
mod asking;
mod book;
mod by_itself;
mod calls;
mod jobs;
mod laws;
mod longest;
mod playing;
mod port;
mod refused;
mod rounds;
mod runs;
mod scans;
mod services;
mod shared;
mod stepping;
mod threads;

pub use book::{KeptBook, Notebook, RoomBook, ShortBook};
pub use laws::fitting_scripts_can_run;
pub use port::{PortOrigin, ServicePort};
pub use runs::{PackedRan, Ran, run_books, run_on, run_packed, run_threads};
