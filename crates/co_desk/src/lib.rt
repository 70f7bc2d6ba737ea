//! The desks of a service: what one CPU's lock guards, with the histories that stand there, and an actor's passes of all
//! histories, by which it writes in them.
#![tactic(auto)]

mod books;
mod calling;
mod desk;
mod finished;
mod kinds;
mod laws;
mod line;
mod lists;
mod moving;
mod name;
mod outs;
mod params;
mod passes;
mod places;
mod popped;
mod running;
mod seats;
mod services;
mod stories;
mod told;

pub use books::Books;
pub use desk::Desk;
pub use finished::Finished;
pub use kinds::Kind;
pub use laws::{begins_by_own, ends_by_own, served_by_own};
pub use line::Line;
pub use lists::{apart, push};
pub use moving::Moving;
pub use name::Name;
pub use outs::{Made, Scanned, Taken};
pub use params::Params;
pub use passes::Passes;
pub use places::Places;
pub use popped::Popped;
pub use seats::{Lives, Seats};
pub use stories::{CpuStory, TimerStory};
pub use told::{Inserted, Told};
