//! What the programs have in common at their front: the words of the command line, and what they say of an input that they refuse.
//! In specs/, what a call of a program may do to its source and its sink.
#![tactic(auto)]

mod command_line;
mod texts;

pub use command_line::words;
pub use texts::{cause_word, fault_text, refusal_text};
