//! Timed sleep: sleepers wait on a channel until they are woken or their time is up, after sleepqueue(9) and msleep(9).
//!
//! What an operation answers is said once, in `specs/Queue`. Threads share one queue: its history is legal, and each call
//! tells its caller the whole history so far, which its entry ends.
#![tactic(auto)]

mod book;
mod bucket;
mod ending;
mod entry;
mod fresh;
pub mod laws;
mod ledger;
mod name;
mod op;
mod outs;
mod passes;
mod queue;
mod reply;
mod sleep;
mod story;
mod timers;

pub use book::Book;
pub use entry::SleepEntry;
pub use fresh::SleepFresh;
pub use name::SleepName;
pub use op::SleepOp;
pub use outs::{SleepMade, Ticked};
pub use passes::SleepPasses;
pub use queue::SleepQueue;
pub use reply::{End, SleepReply};
pub use sleep::Sleep;
pub use story::BookStory;
