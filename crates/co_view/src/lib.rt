//! Reports as one looks at them: the texts that show their notes, in an order that `co_order` makes.
#![tactic(auto)]

mod lanes;
mod parts;
mod picture;
mod roll;
mod scene;
mod seconds;
mod summary;
mod svg;
mod trace;
mod words;

pub use co_order::{Ordered, order_of};
pub use lanes::{Focus, print_lanes};
pub use picture::{Picture, print_picture};
pub use summary::print_summary;
