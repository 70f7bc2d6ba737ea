//! The command `kq`.
mod calls;
pub(super) mod texts;
