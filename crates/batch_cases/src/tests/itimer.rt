//! The command `itimer`.
mod calls;
pub(super) mod texts;
