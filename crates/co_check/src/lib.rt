//! The checker of a report: whether it is one of a run, and else the first line that is wrong.
#![tactic(auto)]

mod actors;
mod asking;
mod checking;
mod cpu;
mod fact;
mod heard;
mod index;
pub mod laws;
mod pass;
mod replay;
mod replayed;
mod replaying;
mod same;
mod slot;
mod verdict;
mod walk;

pub use checking::{check, check_replayed};
pub use replayed::{ReplayedReport, read_replayed_report};
pub use verdict::{Unfit, Verdict};
