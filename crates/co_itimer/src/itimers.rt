//! Interval timers over a service.
ghost use Rattle.std.specs.Prelude.{◌≡◌, ◌+◌, ◌<◌, ◌≤◌, ◌^◌, IfOk, length};
ghost use Rattle.co_itimer.specs.Itimers.{EachFires, IsOpened};
ghost use Rattle.co_single.specs.Acts.{NothingFires};
ghost use Rattle.co_single.specs.Seen.{AddsEntries, AreOfActor};
ghost use Rattle.co_itimer.specs.Timers.{alarm_of, alarmed, clock_after, expirations, set, ticked, value_of};

use crate::book::Book;
use crate::fresh::{ItimersFresh, boot};
use crate::serving::{serve_all, set_to};
use crate::timer::Itimerval;
use co_sbt::{NoMemory, Sbt};
use co_service::{Closing, Name};
use co_single::Single;
use std::alloc::Global;
use std::marker::{Brand, Model};
use std::sync::Wait;

/// The interval timers of some processes, and the service that they stand on: process p has callout p, which is armed exactly
/// where the process's timer is to expire, for that time.
///
/// Contracts see the timers alone, what has happened on the service, and how many sets and ticks there were. The entries of each
/// are of one act, whose number is how many there were before.
#[derive(Drop)]
pub struct Itimers<N: Name> {
    single: Single<N>,
    book: Book,
    work: u64,
}

impl<N: Name> Model for Itimers<N> {
    ghost use Rattle.co_itimer.specs.Itimers.{IsBetweenTicks, ItimersView};

    ghost Value = { ItimersView };

    ghost view = { λ s. record { alone = s.book; seen = s.single; work = s.work } };

    ghost invariant = { λ s. IsBetweenTicks s.single s.book s.work };
}

impl Itimers<Brand> {
    /// Interval timers of 1 to 1024 processes, none of which is set, before their service is opened. This and the opening take
    /// all memory. The service's name is its own, whatever type it is opened with.
    pub fn boot(alloc: Global, processes: u32) -> Result<ItimersFresh, NoMemory>
        requires some { 1 ≤ processes }
        requires limit { processes ≤ 1024 }
        ensures { IfOk result (λ fresh. fresh.processes ≡ processes) }
    {
        boot(alloc, processes)
    }
}

impl<N: Name> Itimers<N> {
    /// Opens the service. The clock shows 0. `NoMemory` where its opening finds no room; no later call takes any.
    pub fn open(alloc: Global, fresh: ItimersFresh) -> Result<Itimers<N>, NoMemory>
        requires { fresh.name ≡ N.name }
        ensures { IfOk result (λ timers. IsOpened fresh.processes timers) }
    {
        let ItimersFresh {
            single,
            processes: _,
            book,
        } = fresh;
        let single = Single::open(alloc, single)?;
        Ok(Itimers {
            single,
            book,
            work: 0,
        })
    }

    /// Sets the timer of process `p` (setitimer): it expires once `to.value` has passed on the clock, or at the last time where
    /// that is earlier, and then each `to.interval`. A value of 0 disarms it, whatever the interval. The answer is what
    /// [`get`](Itimers::get) would have answered.
    pub fn set<R: Wait>(&mut self, rt: &R, p: u32, to: Itimerval) -> Itimerval
        requires process { p < length self.old.alone.timers }
        requires work { self.old.work < 2 ^ 62 }
        ensures answer { result ≡ value_of self.old.alone p }
        ensures alone { self.new.alone ≡ set self.old.alone p to }
        ensures seen { NothingFires self.old.seen self.new.seen }
        ensures entries { AddsEntries self.old.seen self.old.work self.new.seen }
        ensures work { self.new.work ≡ self.old.work + 1 }
    {
        let was = self.book.set(p, to);
        let next = self.book.next(p);
        set_to(rt, self.work, &mut self.single, p, next);
        self.work += 1;
        was
    }

    /// What the timer of process `p` has to come (getitimer): the time until it expires, 0 where it is not set or that has
    /// passed, and its interval.
    pub fn get(&self, p: u32) -> Itimerval
        requires { p < length self.now.alone.timers }
        ensures { result ≡ value_of self.now.alone p }
    {
        self.book.get(p)
    }

    /// Brings the clock to the time `now`, in units of 2^-32 s, if that is later. Each timer whose time has come
    /// expires once: it raises its process's alarm, and where it has an interval it is armed again, for the least
    /// whole number of intervals behind its old time, at least one, that lies above the clock. The answer is the
    /// number of expirations; no other timer is looked at.
    pub fn tick<R: Wait>(&mut self, rt: &R, now: Sbt) -> u32
        requires { self.old.work < 2 ^ 62 }
        ensures answer { result ≡ expirations self.old.alone now }
        ensures alone { self.new.alone ≡ ticked self.old.alone now }
        ensures seen { EachFires self.old.alone (clock_after self.old.alone now) now result self.old.seen self.new.seen }
        ensures entries { AddsEntries self.old.seen self.old.work self.new.seen }
        ensures work { self.new.work ≡ self.old.work + 1 }
    {
        let count = self.single.scan(rt, self.work, now);
        self.book.advance(now);
        serve_all(rt, self.work, &mut self.single, &mut self.book);
        self.work += 1;
        count
    }

    /// Whether the timer of process `p` has expired since this was last asked.
    pub fn alarm(&mut self, p: u32) -> bool
        requires { p < length self.old.alone.timers }
        ensures answer { result ≡ alarm_of self.old.alone p }
        ensures alone { self.new.alone ≡ alarmed self.old.alone p }
        ensures seen { self.new.seen ≡ self.old.seen }
        ensures work { self.new.work ≡ self.old.work }
    {
        self.book.alarm(p)
    }

    /// How many sets and ticks there were.
    pub fn work(&self) -> u64
        ensures { result ≡ self.now.work }
    {
        self.work
    }

    /// Ends the service. It takes no memory. The final histories are what was seen, and each of their entries is of the service's
    /// one actor, whose number is 0.
    pub fn close<R: Wait>(self, rt: &R) -> Closing
        ensures name { result.name ≡ N.name }
        ensures timers { result.timers ≡ self.seen.timers }
        ensures cpus { result.cpus ≡ self.seen.cpus }
        ensures actors { AreOfActor 0 result.timers result.cpus }
    {
        let Itimers {
            single,
            book: _,
            work: _,
        } = self;
        single.close(rt)
    }
}
