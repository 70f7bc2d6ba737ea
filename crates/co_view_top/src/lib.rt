//! The top call of `callout_view`: the words of a view, a report and its text.
#![tactic(auto)]

mod status;
mod texts;
mod top;
mod views;

pub use status::Status;
pub use top::view_main;
pub use views::View;
