//! Waits that end.

use std::sync::atomic::{AtomicU64, Ordering};
use std::thread;

/// Whether the number comes to `least` before many turns are over, in each of which other threads may go on.
pub fn comes_to(number: &AtomicU64, least: u64) -> bool {
    for _ in 0..10_000_000_u32 {
        if number.load(Ordering::SeqCst) >= least {
            return true;
        }
        thread::yield_now();
    }
    false
}
