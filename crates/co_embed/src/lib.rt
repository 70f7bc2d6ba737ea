//! A CPU's callouts for a program that is not written in Rattle: each call answers with plain numbers, or names why not.
//!
//! No call has a condition on its caller, and none but `Embed::new` takes memory. Functions and arguments have 64 bits, so
//! that they hold pointers. There is no lock: the program holds one of its own round all calls on a value.
#![tactic(auto)]

mod calls;
mod embed;
mod life;
mod parcel;
mod refusal;
mod reply;
mod service;
mod sizes;
mod times;
mod words;

pub use embed::Embed;
pub use life::CalloutAttr;
pub use parcel::CalloutParcel;
pub use refusal::{Refusal, status};
pub use reply::CalloutReply;
pub use times::When;
