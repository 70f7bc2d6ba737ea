//! The interval timers alone, without a service.
ghost use Rattle.std.specs.Prelude.{◌≡◌, ◌≤◌, ◌<◌, ◌+◌, true, length, IfOk, replicate, ◌-◌, ◌^◌, ◌++◌, ◌∷◌, [], OnOk, slice_set};
ghost use Rattle.co_itimer.specs.Timers.{idle, opening, timer_of, with_timer, value_of, set, set_timer, time_left, expires, expired, alarm_of, alarmed, following, clock_after};

use crate::timer::{Itimerval, Timer};
use co_sbt::{NoMemory, Sbt, Seq};
use std::alloc::Global;
use std::marker::Model;

/// The clock and each process's timer. Contracts see both.
#[derive(Drop)]
pub(crate) struct Book {
    clock: Sbt,
    timers: Seq<Timer>,
}

impl Model for Book {
    ghost use Rattle.std.specs.Prelude.{length};
    ghost use Rattle.co_itimer.specs.Timers.{Timers as TimersOf, AreFew};

    ghost Value = { TimersOf };

    ghost view = { λ b. record { clock = b.clock; timers = b.timers } };

    ghost invariant = { λ b. AreFew (length b.timers) };
}

/// A timer that isn't set.
fn idle() -> Timer
    ensures { result ≡ idle }
{
    Timer {
        next: None,
        interval: Sbt::zero(),
        alarm: false,
    }
}

/// Appends a timer.
fn push_timer(timers: &mut Seq<Timer>, timer: Timer) -> Result<(), NoMemory>
    ensures { OnOk result (timers.new ≡ timers.old ++ timer ∷ []) }
{
    // Names the type that lies two deep in a timer: the check needs it here.
    let _nested = Some(Sbt::zero());
    timers.push(timer)
}

/// Puts a timer in the place of an old one.
fn put_timer(timers: &mut Seq<Timer>, p: usize, timer: Timer)
    requires { p < length timers.old }
    ensures { timers.new ≡ slice_set timers.old p timer }
{
    let _nested = Some(Sbt::zero());
    timers.replace(p, timer);
}

/// `processes` timers, none of which is set. `NoMemory` where there is no room for them.
fn idle_timers(alloc: Global, processes: u32) -> Result<Seq<Timer>, NoMemory>
    ensures { IfOk result (λ timers. timers ≡ replicate processes idle) }
{
    let mut timers = Seq::new(alloc);
    for _ in 0..processes {
        push_timer(&mut timers, idle())?;
    }
    Ok(timers)
}

/// How long it is until the next expiration.
fn until(now: Sbt, next: Option<Sbt>) -> Sbt
    ensures { result ≡ time_left now next }
{
    match next {
        Some(time) if time > now => difference(time, now),
        _ => Sbt::zero(),
    }
}

/// The time from one to a later one.
fn difference(later: Sbt, earlier: Sbt) -> Sbt
    requires { earlier < later }
    ensures { result ≡ later - earlier }
{
    match Sbt::new(later.raw() - earlier.raw()) {
        Some(time) => time,
        None => later,
    }
}

/// The least time above now that lies a whole number of intervals behind a time, at least one; or the last time.
fn following(now: Sbt, interval: Sbt, time: Sbt) -> Sbt
    requires some { 0 < interval }
    requires come { time ≤ now }
    ensures { result ≡ following now interval time }
{
    let count = (now.raw() - time.raw()) / interval.raw() + 1;
    let next = u128::from(time.raw()) + u128::from(count) * u128::from(interval.raw());
    if next < 0x7fff_ffff_ffff_ffff {
        raw_time(next as u64)
    } else {
        raw_time(0x7fff_ffff_ffff_ffff)
    }
}

/// A time by its units.
fn raw_time(units: u64) -> Sbt
    requires { units < 2 ^ 63 }
    ensures { result ≡ units }
{
    match Sbt::new(units) {
        Some(time) => time,
        None => Sbt::zero(),
    }
}

/// A timer that is set.
fn set_timer(now: Sbt, timer: Timer, to: Itimerval) -> Timer
    ensures { result ≡ set_timer now timer to }
{
    if to.value == Sbt::zero() {
        Timer {
            next: None,
            interval: Sbt::zero(),
            alarm: timer.alarm,
        }
    } else {
        Timer {
            next: Some(now.sat_add(to.value)),
            interval: to.interval,
            alarm: timer.alarm,
        }
    }
}

/// A timer whose time has come, after its expiration.
fn expired(now: Sbt, timer: Timer) -> Timer
    requires { expires now timer ≡ true }
    ensures { result ≡ expired now timer }
{
    let next = match timer.next {
        Some(time) if timer.interval > Sbt::zero() => Some(following(now, timer.interval, time)),
        _ => None,
    };
    Timer {
        next,
        interval: timer.interval,
        alarm: true,
    }
}

/// Whether a timer's time has come.
fn expires(now: Sbt, timer: Timer) -> bool
    ensures { result ≡ expires now timer }
{
    match timer.next {
        Some(time) => time <= now,
        None => false,
    }
}

impl Book {
    /// A book of `processes` processes, at most 1024, none of whose timers is set, at time 0. `NoMemory` where there
    /// is no room.
    pub(crate) fn new(alloc: Global, processes: u32) -> Result<Book, NoMemory>
        requires { processes ≤ 1024 }
        ensures { IfOk result (λ book. book ≡ opening processes) }
    {
        Ok(Book {
            clock: Sbt::zero(),
            timers: idle_timers(alloc, processes)?,
        })
    }

    /// A process's timer.
    fn timer(&self, p: u32) -> Timer
        requires { p < length self.now.timers }
        ensures { result ≡ timer_of self.now p }
    {
        self.timers.as_slice()[p as usize]
    }

    /// What a process's timer has to come.
    pub(crate) fn get(&self, p: u32) -> Itimerval
        requires { p < length self.now.timers }
        ensures { result ≡ value_of self.now p }
    {
        let timer = self.timer(p);
        Itimerval {
            value: until(self.clock, timer.next),
            interval: timer.interval,
        }
    }

    /// When a process's timer expires next.
    pub(crate) fn next(&self, p: u32) -> Option<Sbt>
        requires { p < length self.now.timers }
        ensures { result ≡ (timer_of self.now p).next }
    {
        self.timer(p).next
    }

    /// Sets a process's timer; the answer is what it had to come.
    pub(crate) fn set(&mut self, p: u32, to: Itimerval) -> Itimerval
        requires { p < length self.old.timers }
        ensures answer { result ≡ value_of self.old p }
        ensures after { self.new ≡ set self.old p to }
    {
        let was = self.get(p);
        let timer = set_timer(self.clock, self.timer(p), to);
        put_timer(&mut self.timers, p as usize, timer);
        was
    }

    /// A process's alarm, which is cleared.
    pub(crate) fn alarm(&mut self, p: u32) -> bool
        requires { p < length self.old.timers }
        ensures answer { result ≡ alarm_of self.old p }
        ensures after { self.new ≡ alarmed self.old p }
    {
        let timer = self.timer(p);
        let silent = Timer {
            next: timer.next,
            interval: timer.interval,
            alarm: false,
        };
        put_timer(&mut self.timers, p as usize, silent);
        timer.alarm
    }

    /// A process's timer has expired; the answer is when it does so next.
    pub(crate) fn expire(&mut self, p: u32) -> Option<Sbt>
        requires exists { p < length self.old.timers }
        requires come { expires self.old.clock (timer_of self.old p) ≡ true }
        ensures after { self.new ≡ with_timer self.old p (expired self.old.clock (timer_of self.old p)) }
        ensures next { result ≡ (timer_of self.new p).next }
    {
        let timer = expired(self.clock, self.timer(p));
        let next = timer.next;
        put_timer(&mut self.timers, p as usize, timer);
        next
    }

    /// Brings the clock to a time, if that is later.
    pub(crate) fn advance(&mut self, time: Sbt)
        ensures { self.new ≡ record self.old { clock = clock_after self.old time } }
    {
        if self.clock < time {
            self.clock = time;
        }
    }
}
