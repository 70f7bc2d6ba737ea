//! Batches of commands: the grammar of the texts of which each line is answered on its own. A language is a record of what one
//! such text has of its own: its two words and the forms of its commands.
#![tactic(auto)]

mod batch;
mod command;
mod print;
mod progress;
mod reader;

pub use batch::Batch;
pub use command::{Command, lone_object, object};
pub use print::{print_last, print_number, print_word};
pub use reader::read_batch;
