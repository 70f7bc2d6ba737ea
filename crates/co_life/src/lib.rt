//! A history that several actors share. It only grows, and each actor knows what it has seen of it.
#![tactic(auto)]

mod life;
mod rule;
mod shown;
mod story;
mod view;

pub use life::{Closed, Keeper, Life, Pass};
pub use shown::Shown;
pub use story::Story;
