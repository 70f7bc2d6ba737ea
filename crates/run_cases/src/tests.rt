//! Runs on threads.
//!
//! What has a large drop, as a script or a service, is let go by `drop`: else its drop is written out, and checked, in each
//! function that owns it at its end.
mod crowd;
mod packed;
mod packed_list;
mod ports;
mod running;
mod scene;
mod scenes;
mod short;
mod waits;
