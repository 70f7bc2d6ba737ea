//! The queue of what is pending, and the moment for which its clock is programmed.
ghost use Rattle.std.specs.Prelude.{◌≡◌, ◌<◌, ◌≤◌, length, map, take as list_take, IfOk, IfSome};
ghost use Rattle.std.specs.Option.{option_map};
ghost use Rattle.co_sbt.specs.Time.{sat_add};
ghost use Rattle.co_event.specs.Queue.{IsSize};
ghost use Rattle.co_event.specs.Calls.{arm, stop, take, settle};
ghost use Rattle.co_event.specs.EventTimers.{first_deadline};
ghost use Rattle.co_event.specs.Events.{Events, next_moment};
ghost use Rattle.co_event.specs.GiveOut.{cleared, CanGiveOut, IsGivenOut};
ghost use Rattle.co_event.specs.StandsFor.{Answers, IsNew, StandsFor, written};

use crate::tournament::Tournament;
use co_bucket::WheelQueue;
use co_queue::{Looks, TimerQueue};
use co_sbt::{NoMemory, Sbt};
use std::alloc::Global;
use std::marker::Model;

/// The answer to an arming.
#[derive(Clone, Copy, Debug, PartialEq, Eq)]
pub struct Armed {
    /// 1 where the callout was pending, else 0, after `callout_reset`.
    pub code: i32,
    /// The time from which it may fire, in units of 2^-32 s: never before now (our own decision).
    pub due: Sbt,
}

/// An event of the clock.
#[derive(Clone, Copy, Debug, PartialEq, Eq)]
pub struct Event {
    /// The moment for which the clock was programmed, in units of 2^-32 s.
    pub at: Sbt,
    /// How many callouts fire at it, at least 1.
    pub count: u32,
}

/// The callouts that are pending, each with the window in which it may fire, and the next moment of the clock.
///
/// A window goes from a callout's due time to that time plus its precision, the `pr` of `callout_reset_sbt` in callout(9). That
/// the clock is programmed for the first end of a window is our own decision, as is the order of those that fire at one
/// moment: that of a wheel of 256 buckets. The callouts stand in such a wheel by their due times, and the ends of their
/// windows, their deadlines, in a tournament tree beside it. No call takes memory after `new`.
#[derive(Drop)]
pub struct EventQueue {
    /// What is pending, by its due time.
    wheel: WheelQueue,
    /// The deadlines of the callouts.
    deadlines: Tournament,
    /// The time up to which the clock has run.
    clock: Sbt,
}

impl Model for EventQueue {
    ghost use Rattle.co_event.specs.EventTimers.{EventTimers};

    ghost Value = { EventTimers };

    ghost use Rattle.co_event.specs.Queue.{event_timers, IsEventQueue};

    ghost view = { event_timers };

    ghost invariant = { IsEventQueue };
}

impl EventQueue {
    /// A queue for `size` callouts, of which none is pending, at time zero. `NoMemory` where there is no room for their wheel
    /// and their deadlines.
    ///
    /// There are 1 to 1024 callouts (a limit of our own).
    pub fn new(alloc: Global, size: u32) -> Result<EventQueue, NoMemory>
        requires { IsSize size }
        ensures { IfOk result (IsNew size) }
    {
        let direct = vec![in alloc; false; size as usize]?;
        Ok(EventQueue {
            wheel: WheelQueue::new(alloc, size, 256, direct.as_slice())?,
            deadlines: Tournament::new(alloc, size as usize)?,
            clock: Sbt::zero(),
        })
    }

    /// Arms callout `i`, below the size, anew: it may fire from `due` to `due` plus `prec`, in units of 2^-32 s, or
    /// the last time where that is earlier. A due time in the past is moved to now (our own decision).
    pub fn arm(&mut self, i: u32, due: Sbt, prec: Sbt) -> Armed
        requires { i < self.old.timers.size }
        ensures { Answers self.old self.new (λ e. arm e i due prec) result }
    {
        let found = self.wheel.remove(i);
        let due = self.wheel.insert(i, 0, due.max(self.clock));
        self.deadlines.set(i as usize, Some(end_of(due, prec)));
        Armed {
            code: if found { 1 } else { 0 },
            due,
        }
    }

    /// Takes callout `i`, below the size, out of what is pending: 1 where it was, else -1.
    pub fn stop(&mut self, i: u32) -> i32
        requires { i < self.old.timers.size }
        ensures { Answers self.old self.new (λ e. stop e i) result }
    {
        let found = self.wheel.remove(i);
        self.deadlines.set(i as usize, None);
        if found { 1 } else { -1 }
    }

    /// The moment for which the clock is programmed, in units of 2^-32 s: the latest that misses no pending window,
    /// and never before now. None exactly where nothing is pending.
    pub fn next_event(&self) -> Option<Sbt>
        ensures deadline { result ≡ first_deadline self.now }
        ensures moment { (e : Events) → StandsFor self.now e → result ≡ next_moment e }
        ensures ahead { IfSome result (λ moment. self.now.clock ≤ moment) }
    {
        self.deadlines.earliest()
    }

    /// Runs the clock to its next moment, and writes the numbers of the callouts that fire then, in order, into `out`, which has
    /// a place for each callout. None exactly where nothing is pending; then nothing changes. The moment after it is later.
    pub fn take(&mut self, out: &mut [u32]) -> Option<Event>
        requires { self.old.timers.size ≤ length out.old }
        ensures answers { Answers self.old self.new take (result, written result out.new) }
        ensures within { IfSome result (λ event. event.count ≤ length out.new) }
        ensures moment { option_map (λ event. event.at) result ≡ first_deadline self.old }
        ensures later { IfSome result (λ event. IfSome (first_deadline self.new) (λ next. event.at < next)) }
    {
        let at = self.next_event()?;
        let mut looks = Looks::new();
        self.wheel.scan(at, &mut looks);
        let count = give_out(&mut self.wheel, &mut self.deadlines, out);
        self.clock = at;
        Some(Event { at, count })
    }

    /// Runs the clock on to `now`, in units of 2^-32 s, where it is not there yet. Nothing fires; no pending window
    /// ends at or before `now`.
    pub fn settle(&mut self, now: Sbt)
        requires { IfSome (first_deadline self.old) (λ moment. now < moment) }
        ensures { Answers {R = Unit {0}} self.old self.new (λ e. settle e now) tt }
    {
        self.clock = self.clock.max(now);
    }

    /// The time up to which the clock has run, in units of 2^-32 s.
    pub fn now(&self) -> Sbt
        ensures { result ≡ self.now.clock }
    {
        self.clock
    }
}

/// The end of a window, which is no earlier than its due time.
fn end_of(due: Sbt, prec: Sbt) -> Sbt
    ensures sum { result ≡ sat_add due prec }
    ensures later { due ≤ result }
{
    // read, so that the proof knows that it is a time
    let _units = due.raw();
    due.sat_add(prec)
}

/// Gives out the expired list: writes its numbers, in order, and takes their deadlines away. The answer is how many there are.
fn give_out(wheel: &mut WheelQueue, deadlines: &mut Tournament, out: &mut [u32]) -> u32
    requires { CanGiveOut wheel.old.expired deadlines.old out.old }
    ensures wheel { IsGivenOut wheel.old wheel.new }
    ensures deadlines { deadlines.new ≡ cleared (map (λ due. due.i) wheel.old.expired) deadlines.old }
    ensures count { result ≡ length wheel.old.expired }
    ensures out { list_take result out.new ≡ map (λ due. due.i) wheel.old.expired }
{
    let mut count = 0;
    while let Some((i, _)) = wheel.pop() {
        out[count as usize] = i;
        deadlines.set(i as usize, None);
        count += 1;
    }
    count
}
