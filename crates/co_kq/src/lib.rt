//! Timers of a kevent list, over the running service: each knote has a callout.
#![tactic(auto)]

mod fresh;
mod index;
mod kevent;
mod knote;
mod knotes;
mod kq;
mod numbers;
mod ticks;

pub use fresh::KqFresh;
pub use kevent::{Add, Event, Unit};
pub use knote::{Knote, Slot};
pub use kq::Kq;
