//! The generator of scripts, and the counts of the notes that a run makes. Both are our own. `laws` says that every generated
//! script keeps the ranges of a script, and that the fates of a run's armings add up.
#![tactic(auto)]

mod acts;
mod choice;
mod counts;
mod draws;
mod fates;
pub mod laws;
mod script;
mod tally;

pub use counts::{Counts, print_soak};
pub use draws::Draws;
pub use script::gen_script;
pub use tally::TallyOf;
