//! A service of one CPU without clients, whose one actor is the CPU's: what it sees is all that happens.
#![tactic(auto)]

mod fresh;
pub mod laws;
mod single;

pub use fresh::SingleFresh;
pub use single::{Fired, Single};
