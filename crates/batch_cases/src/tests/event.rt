//! The command `event`.
mod calls;
mod long;
pub(super) mod texts;
