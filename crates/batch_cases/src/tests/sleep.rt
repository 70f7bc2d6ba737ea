//! The command `sleep`.
mod replies;
pub(super) mod texts;
mod threads;
