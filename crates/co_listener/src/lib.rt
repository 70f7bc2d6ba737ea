//! Notes that are told as they are made, to whoever keeps them.
#![tactic(auto)]

mod kept;
mod listener;

pub use kept::KeptLists;
pub use listener::Listener;
