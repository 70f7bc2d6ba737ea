//! A sleeper, a waker and the CPU, each in a thread of its own, over one sleep queue.
ghost use Rattle.std.specs.Prelude.{◌≡◌, ◌<◌, false};
ghost use Rattle.std.specs.List.{All};
ghost use Rattle.co_desk.specs.Services.{IsFree};
ghost use Rattle.co_sleepq.specs.Params.{ArePasses, sleepers};

use co_sbt::{Sbt, Seq};
use co_sleepq::{End, SleepFresh, SleepName, SleepPasses, SleepQueue, SleepReply, Ticked};
use std::alloc::Global;
use std::marker::Brand;
use std::process::Abort;
use std::sync::Wait;
use std::sync::atomic::{AtomicBool, Ordering};
use std::thread::{Threads, map_vec};

/// How the sleeper's sleeps ended.
#[derive(Clone, Copy)]
struct Slept {
    woken: u32,
    timed_out: u32,
    /// Answers that there may not be.
    other: u32,
}

/// Sleeps for at most a tick, and asks until it is awake.
fn sleep_once<N: SleepName, R: Wait>(
    rt: &R,
    queue: &SleepQueue<N>,
    passes: &mut SleepPasses,
) -> (SleepReply, SleepReply)
    requires passes { ArePasses N.name N.book queue.now passes.old }
    requires sleeper { 0 < sleepers queue.now }
    ensures passes { ArePasses N.name N.book queue.now passes.new }
{
    let began = queue.sleep(rt, passes, 0, 0, 7, 1, Sbt::zero()).reply;
    for _ in rt.forever() {
        let reply = queue.awake(rt, passes, 1, 0).reply;
        if reply != SleepReply::Asleep {
            return (began, reply);
        }
    }
    unreachable!()
}

impl Slept {
    /// Counts this sleep, the one of this number.
    fn count(&mut self, number: u64, began: SleepReply, end: SleepReply) {
        match (began == SleepReply::Began(number), end) {
            (true, SleepReply::Was(End::Woken)) => self.woken = self.woken.wrapping_add(1),
            (true, SleepReply::Was(End::TimedOut)) => {
                self.timed_out = self.timed_out.wrapping_add(1);
            }
            _ => self.other = self.other.wrapping_add(1),
        }
    }
}

/// Sleeps 64 times.
fn sleep_often<N: SleepName, R: Wait>(
    rt: &R,
    queue: &SleepQueue<N>,
    passes: &mut SleepPasses,
    over: &AtomicBool,
) -> Slept
    requires passes { ArePasses N.name N.book queue.now passes.old }
    requires sleeper { 0 < sleepers queue.now }
{
    let mut slept = Slept {
        woken: 0,
        timed_out: 0,
        other: 0,
    };
    for k in 0..64_u64 {
        let (began, end) = sleep_once(rt, queue, passes);
        slept.count(k, began, end);
    }
    over.store(true, Ordering::SeqCst);
    slept
}

/// Wakes until all is over, and counts whom it woke.
fn wake_often<N: SleepName, R: Wait>(
    rt: &R,
    queue: &SleepQueue<N>,
    passes: &mut SleepPasses,
    over: &AtomicBool,
) -> u32
    requires passes { ArePasses N.name N.book queue.now passes.old }
{
    let mut woken: u32 = 0;
    for _ in rt.forever() {
        if over.load(Ordering::SeqCst) {
            return woken;
        }
        if queue.wakeup_one(rt, passes, 7) != SleepReply::Nobody {
            woken = woken.wrapping_add(1);
        }
    }
    unreachable!()
}

/// Ticks until all is over, and counts what came due.
fn tick_often<N: SleepName, R: Wait>(
    rt: &R,
    queue: &SleepQueue<N>,
    passes: &mut SleepPasses,
    over: &AtomicBool,
) -> Ticked
    requires passes { ArePasses N.name N.book queue.now passes.old }
    requires free { IsFree false passes.old.service 0 }
{
    let second = Sbt::from_ticks(1000, 1000);
    let mut all = Ticked { out: 0, late: 0 };
    for _ in rt.forever() {
        if over.load(Ordering::SeqCst) {
            return all;
        }
        let ticked = queue.tick(rt, passes, 0, second);
        all = Ticked {
            out: all.out.wrapping_add(ticked.out),
            late: all.late.wrapping_add(ticked.late),
        };
    }
    unreachable!()
}

/// What came of a thread's calls.
#[derive(Clone, Copy)]
enum Came {
    /// Of the sleeper's.
    Slept(Slept),
    /// Of the waker's, how many it woke.
    Woken(u32),
    /// Of the CPU's.
    Ticked(Ticked),
}

/// The calls of an actor: the first client sleeps, the other wakes, and the last is the CPU's.
fn play<N: SleepName, R: Wait>(
    rt: &R,
    queue: &SleepQueue<N>,
    mut passes: SleepPasses,
    over: &AtomicBool,
) -> Came
    requires passes { ArePasses N.name N.book queue.now passes }
    requires sleeper { 0 < sleepers queue.now }
    requires free { passes.service.actor ≡ 2 → IsFree false passes.service 0 }
{
    let came = match passes.actor() {
        0 => Came::Slept(sleep_often(rt, queue, &mut passes, over)),
        2 => Came::Ticked(tick_often(rt, queue, &mut passes, over)),
        _ => Came::Woken(wake_often(rt, queue, &mut passes, over)),
    };
    drop(passes);
    came
}

/// All three, each in a thread of its own.
fn play_all<N: SleepName + Send + Sync, R: Abort + Threads + Wait + Sync>(
    rt: &R,
    alloc: Global,
    fresh: SleepFresh,
    passes: Seq<SleepPasses>,
) -> (Slept, u32, Ticked)
    requires name { fresh.name ≡ record { service = N.name; book = N.book } }
    requires sleeper { 0 < sleepers fresh.params }
    requires passes { All (λ q. ArePasses N.name N.book fresh.params q × (q.service.actor ≡ 2 → IsFree false q.service 0)) passes }
{
    let Ok(queue) = SleepQueue::<N>::open(alloc, fresh) else {
        panic!(rt; "no memory");
    };
    let over = AtomicBool::new(false);
    let one = |passes: SleepPasses| -> Came
        requires { ArePasses N.name N.book queue passes × (0 < sleepers queue) × (passes.service.actor ≡ 2 → IsFree false passes.service 0) }
    { play(rt, &queue, passes, &over) };
    let came = map_vec(rt, passes.into_vec(), &one).expect(rt, "no memory");
    drop(queue);
    match came.as_slice() {
        [Came::Slept(slept), Came::Woken(woken), Came::Ticked(ticked)] => (*slept, *woken, *ticked),
        _ => panic!(rt; "another order"),
    }
}

// Each sleep is ended once, by the waker or by its time, and the sleeper is told by which.
#[test]
fn each_sleep_is_ended_once(rt: HostRuntime) {
    let (fresh, passes) = SleepQueue::boot(rt.alloc(), 1, 2).expect(&rt, "no memory");
    let ends = play_all::<Brand, _>(&rt, rt.alloc(), fresh, passes);
    let (slept, woken, ticked) = ends;
    let all_ended = slept.other == 0 && slept.woken.wrapping_add(slept.timed_out) == 64;
    let as_told = slept.woken == woken && slept.timed_out == ticked.out;
    assert!(rt; all_ended && as_told && ticked.late <= woken);
}
