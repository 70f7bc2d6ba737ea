//! Services that are played by hand on one thread, call by call, through what `co_service` offers, and worked cases of the histories below them and of
//! the handles above them.
#![tactic(auto)]

mod scene;
#[cfg(test)]
mod tests;

pub use scene::Scene;
