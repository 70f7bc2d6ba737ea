//! Histories that actors share, written by one thread and by several.
mod actors;
mod threads;
