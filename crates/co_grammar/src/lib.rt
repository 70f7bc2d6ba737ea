//! The lines of a script, both ways: what the words of a line state, whether that fits the script so far, and the words
//! that an act or a line of the frame is written by. The acts are the calls of callout(9) in FreeBSD 12; the words are our
//! own decision.
#![tactic(auto)]

mod actors;
mod ahead;
pub mod checks;
mod convert;
pub mod forms;
pub mod frame;
mod keyword;
mod operands;
mod print;
mod raw;

pub use actors::turn;
pub use ahead::act_ahead;
pub use convert::spec_of;
pub use keyword::{Kind, Opener, Verb, kind_of, verb_of};
pub use operands::moment;
pub use print::{actor_name, print_act, print_lock, print_lone, print_numbered, print_timer};
pub use raw::{RawLock, RawRole, RawSpec, RawTurn};
