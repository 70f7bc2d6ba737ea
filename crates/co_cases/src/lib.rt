//! The worked examples of the programs, as tables for tests of their top calls in memory.
#![tactic(auto)]

#[cfg(test)]
mod examples;
#[cfg(test)]
mod ordinary;
#[cfg(test)]
mod outcome;
#[cfg(test)]
mod quiet_ends;
#[cfg(test)]
mod tests;
#[cfg(test)]
mod turns;

#[cfg(test)]
pub use ordinary::ordinary_script;
#[cfg(test)]
pub use outcome::{Ends, Outcome, call, make, read, read_in_turns};
#[cfg(test)]
pub use quiet_ends::quiet;
#[cfg(test)]
pub use turns::{TurnGate, Turns};
