//! The texts of the commands that answer line by line and work on a service of one CPU: `kq`, `sleep` and `itimer`.
#![tactic(auto)]

mod ending;
pub mod itimer;
pub mod kq;
mod number;
pub mod sleep;
