//! Timers with handles: worked calls of clients and CPUs.
//!
//! What is let go at the end of a function is let go by a call: else its drop, field by field, is a part of the function's own proof.
mod functions;
mod posts;
mod scenes;
mod stage;
mod steps;
mod threads;
