//! Threads that add to counters behind locks.
ghost use Rattle.std.specs.Prelude.{◌<◌, ◌^◌};

use crate::work::Work;
use co_sbt::NoMemory;
use std::alloc::Global;
use std::sync::{Mutex, Wait};
use std::thread::{Threads, map_indices};

/// Adds to a counter behind its lock, twice as often as there are calls of each kind.
fn add<R: Wait>(rt: &R, counters: &[Mutex<u64>], work: &Work, thread: u32) {
    let Some(counter) = counters.get(work.place(thread) as usize) else {
        return;
    };
    for _ in 0..work.calls.saturating_mul(2) {
        let mut count = counter.lock(rt);
        *count = count.saturating_add(1);
    }
}

/// Lets the threads add. `NoMemory` where there is no room for them.
fn add_all<R: Threads + Wait + Sync>(
    rt: &R,
    alloc: Global,
    counters: &[Mutex<u64>],
    work: &Work,
) -> Result<(), NoMemory> {
    let one = |thread: usize|
        requires { thread < 2 ^ 32 }
    { add(rt, counters, work, thread as u32) };
    match map_indices(rt, alloc, work.threads as usize, &one) {
        Ok(_) => Ok(()),
        Err(_) => Err(NoMemory {}),
    }
}

/// A counter for each thread.
fn counters(alloc: Global, threads: u32) -> Result<Vec<Mutex<u64>>, NoMemory> {
    let mut all = Vec::new(alloc);
    for _ in 0..threads {
        if all.push(Mutex::new(0)).is_err() {
            return Err(NoMemory {});
        }
    }
    Ok(all)
}

/// Lets the threads add, and gives half of what stands in the counters then. `NoMemory` where there is no room for the
/// counters.
pub fn run<R: Threads + Wait + Sync>(rt: &R, alloc: Global, work: &Work) -> Result<u64, NoMemory> {
    let all = counters(alloc, work.threads)?;
    let added = add_all(rt, alloc, all.as_slice(), work);
    let mut sum: u64 = 0;
    for counter in all {
        sum = sum.saturating_add(counter.into_inner());
    }
    added?;
    Ok(sum / 2)
}
