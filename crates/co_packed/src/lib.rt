//! Notes in few bytes.
#![tactic(auto)]

mod ahead;
mod halves;
mod heads;
mod kind_numbers;
mod kinds;
mod note_numbers;
mod notes;
mod numbers;
mod operations;
mod packed;
mod replies;
mod rows;
mod typed;
mod words;

pub use ahead::NotesAhead;
pub use halves::{AnyOp, AnyReply};
pub use heads::Head;
pub use notes::PackedNotes;
pub use packed::PackedNote;
