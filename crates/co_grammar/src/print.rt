//! Lines as they are written.
mod act;
mod actor;
mod frame;

pub use act::print_act;
pub use actor::actor_name;
pub use frame::{print_lock, print_lone, print_numbered, print_timer};
