//! The plain world: every interleaving of a script's actors, told by definitions alone, and the laws of every schedule.
#![tactic(auto)]

pub mod laws;
mod turn;

pub use turn::{Turn, Why};
