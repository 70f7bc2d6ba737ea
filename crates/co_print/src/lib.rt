//! The report of lists of notes as a text, also by threads that print its parts beside each other.
#![tactic(auto)]

mod by_threads;
mod counting;
mod frame;
pub mod laws;
mod order;
mod origin;
mod packing;
mod report;

pub use by_threads::print_by_threads;
pub use frame::{begin_heading, head_piece, in_frame, print_heading};
pub use order::{Order, order_of, place_count};
pub use origin::{Origin, note_from};
pub use report::{place_of, print_report};
