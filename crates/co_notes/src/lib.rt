//! The line of a note, both ways: its words, and the note that a line shows.
#![tactic(auto)]

pub mod laws;
mod note;
mod reading;

pub use note::{print_note, print_packed};
pub use reading::names::{Names, names_of};
pub use reading::notes::{NumberedEntry, note_of, read_note, unread};
