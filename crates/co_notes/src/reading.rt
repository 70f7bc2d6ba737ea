//! The note that a line shows, by its words.
mod codes;
pub mod names;
pub mod notes;
mod operations;
mod parts;
mod plain;
mod queue;
mod replies;
mod values;
