//! A timer queue through armings, stops and scans.
ghost use Rattle.std.specs.Prelude.{◌≡◌, ◌≤◌, ◌<◌, IfOk};
ghost use Rattle.co_queue.specs.Timers.{IsWheel};

use co_bucket::WheelQueue;
use co_queue::{ListQueue, Looks, TimerQueue};
use co_sbt::{NoMemory, Sbt, Seq};
use std::alloc::Global;

/// The armings between two scans.
const SCAN_EVERY: u64 = 256;

/// Which of the two timer queues is measured.
#[derive(Clone, Copy, Drop)]
pub enum Kind {
    /// The plain list, `ListQueue`.
    List,
    /// The wheel of buckets, `WheelQueue`.
    Wheel,
}

/// What a run is to do.
#[derive(Clone, Copy, Drop)]
pub struct Work {
    /// How many callouts the queue has, 1 to 1024.
    pub callouts: u32,
    /// How many armings are made.
    pub armings: u64,
    /// How far time goes on from one arming to the next, in units of 2^-32 s.
    pub step: Sbt,
}

/// What a run did.
#[derive(Clone, Copy, Drop)]
pub struct Counts {
    /// Armings that took the place of one that had not fired.
    pub replaced: u64,
    /// Armings that were taken out before they fired.
    pub stopped: u64,
    /// Armings that a scan gave out.
    pub fired: u64,
    /// How many scans were made.
    pub scans: u64,
    /// How many entries the scans looked at.
    pub looks: u64,
}

/// The next number of a linear congruence modulo 2^64.
fn next_draw(draw: u64) -> u64 {
    draw.wrapping_mul(6364136223846793005)
        .wrapping_add(1442695040888963407)
}

/// A time of less than 64 buckets.
fn span(draw: u64) -> Sbt {
    match Sbt::new(draw / 1024 % 0x4000_0000) {
        Some(t) => t,
        None => unreachable!(),
    }
}

/// Takes callout `i` out, and puts it in again with arming `n`.
fn replace<Q: TimerQueue>(queue: &mut Q, i: u32, n: u64, t: Sbt) -> bool
    requires { i < (Q.state queue.old).size }
    ensures { (Q.state queue.new).size ≡ (Q.state queue.old).size }
{
    let found = queue.remove(i);
    queue.insert(i, n, t);
    found
}

/// Scans, and pops all that came due.
fn scan<Q: TimerQueue>(queue: &mut Q, now: Sbt, counts: &mut Counts)
    ensures { (Q.state queue.new).size ≡ (Q.state queue.old).size }
{
    let mut looks = Looks::new();
    let count = queue.scan(now, &mut looks);
    for _ in 0..count {
        queue.pop();
    }
    counts.fired = counts.fired.saturating_add(u64::from(count));
    counts.scans = counts.scans.saturating_add(1);
    counts.looks = counts.looks.saturating_add(looks.count());
}

/// Arms callouts that are drawn, each within 64 buckets. Every fourth time one is stopped too.
fn arm_all<Q: TimerQueue>(queue: &mut Q, work: &Work) -> Counts
    requires some { 1 ≤ work.now.callouts }
    requires size { work.now.callouts ≤ (Q.state queue.old).size }
{
    let mut counts = Counts {
        replaced: 0,
        stopped: 0,
        fired: 0,
        scans: 0,
        looks: 0,
    };
    let mut draw = 1;
    let mut now = Sbt::zero();
    for n in 0..work.armings {
        draw = next_draw(draw);
        now = now.sat_add(work.step);
        let i = (draw >> 33) as u32 % work.callouts;
        let due = now.sat_add(span(draw));
        let found = replace(queue, i, n, due);
        counts.replaced = counts.replaced.saturating_add(u64::from(found));
        if n % 4 == 0 {
            let found = queue.remove((draw >> 43) as u32 % work.callouts);
            counts.stopped = counts.stopped.saturating_add(u64::from(found));
        }
        if n % SCAN_EVERY == 0 {
            scan(queue, now, &mut counts);
        }
    }
    counts
}

/// Runs a queue that was just made, where it was.
fn run_made<Q: TimerQueue + Drop>(
    made: Result<Q, NoMemory>,
    work: &Work,
) -> Result<Counts, NoMemory>
    requires some { 1 ≤ work.now.callouts }
    requires size { IfOk made (λ queue. work.now.callouts ≤ (Q.state queue).size) }
{
    let mut queue = made?;
    Ok(arm_all(&mut queue, work))
}

/// Runs a new queue. `NoMemory` where there is no room for it.
pub fn run(alloc: Global, kind: Kind, buckets: u32, work: &Work) -> Result<Counts, NoMemory>
    requires some { 1 ≤ work.now.callouts }
    requires few { work.now.callouts ≤ 1024 }
    requires buckets { IsWheel buckets }
{
    let all = Seq::filled(alloc, work.callouts as usize, false)?;
    let direct = all.as_slice();
    match kind {
        Kind::List => run_made(ListQueue::new(alloc, work.callouts, buckets, direct), work),
        Kind::Wheel => run_made(WheelQueue::new(alloc, work.callouts, buckets, direct), work),
    }
}
