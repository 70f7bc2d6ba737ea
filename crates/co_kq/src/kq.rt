//! The kevent list over a running service.
ghost use Rattle.std.specs.Prelude.{◌≡◌, ◌≤◌, ◌<◌, ◌+◌, ◌^◌, ◌*◌, Some, true, false, length, take, max, IfOk, IfSome, IfNone, MatchOption};
ghost use Rattle.co_kq.specs.Kevents.{span_of, is_span, new_knote, add_answer, added, deleted_count, deleted, ticked, expirations, events, delivered, put};
ghost use Rattle.co_kq.specs.Numbers.{AreKept, CanPlace, FiresCounted, IsOpened, IsPut};
ghost use Rattle.co_single.specs.Acts.{NothingFires};
ghost use Rattle.co_single.specs.Seen.{AddsEntries, AreOfActor};
ghost use Rattle.co_kq.specs.Slots.{StandsAtKey, HasNoEvent, TellsOne};

use crate::fresh::KqFresh;
use crate::kevent::{Add, Event, Unit};
use crate::knote::Knote;
use crate::knotes::Knotes;
use crate::numbers::Uses;
use crate::ticks::{clear_stale, serve_all};
use co_sbt::{NoMemory, Sbt};
use co_service::{Closing, Name};
use co_single::Single;
use std::alloc::Global;
use std::marker::{Brand, Model};
use std::sync::Wait;

/// Timers of kevent(2) over a running service: each knote has a callout. Contracts see for how many knotes there is room, how
/// many adds and ticks there were, the kevent list, what the service's one actor has seen, and the callout of each ident's
/// knote. The entries of an add and of a tick are of one act, whose number is how many of these there were before.
#[derive(Drop)]
pub struct Kq<N: Name> {
    single: Single<N>,
    clock: Sbt,
    /// For how many knotes there is room, 1 to 1024.
    room: u32,
    work: u64,
    knotes: Knotes,
    /// By callout: what it is in use for.
    uses: Uses,
}

impl<N: Name> Model for Kq<N> {
    ghost use Rattle.co_kq.specs.Numbers.{KqView, IsKq, kevents_in, callouts_in};

    ghost Value = { KqView };

    ghost view = { λ k. record { room = k.room; work = k.work; list = kevents_in k.clock k.knotes.slots; passes = k.single; callouts = callouts_in k.knotes.slots } };

    ghost invariant = { λ k. IsKq k.clock k.room k.work k.knotes k.uses k.single };
}

/// The span of a value, or None where it is 0, or 2^63 units or more.
fn span_of(value: u64, unit: Unit) -> Option<Sbt>
    ensures { MatchOption result (is_span (span_of value unit) ≡ false)
        (λ span. (is_span (span_of value unit) ≡ true) × (span ≡ span_of value unit)) }
{
    let units = u128::from(value) * 0x1_0000_0000 / u128::from(unit.per_second());
    if units == 0 || units >= 0x8000_0000_0000_0000 {
        return None;
    }
    Sbt::new(units as u64)
}

/// A knote that begins now.
fn begun(now: Sbt, ident: u64, span: Sbt, oneshot: bool) -> Knote
    ensures { result ≡ new_knote now ident span oneshot }
{
    Knote {
        ident,
        next: Some(now.sat_add(span)),
        span,
        oneshot,
        count: 0,
    }
}

/// The later of two times.
fn later(a: Sbt, b: Sbt) -> Sbt
    ensures { result ≡ max a b }
{
    if a < b { b } else { a }
}

/// A knote takes the place of the old one of its ident, at this key.
fn replace<N: Name, R: Wait>(
    rt: &R,
    act: u64,
    single: &mut Single<N>,
    knotes: &mut Knotes,
    uses: &Uses,
    key: usize,
    knote: Knote,
    due: Sbt,
)
    requires kept { AreKept act knotes.old.slots uses.now single.old }
    requires there { StandsAtKey knotes.old.slots key knote.ident }
    requires low { act < 2 ^ 62 }
    requires due { knote.next ≡ Some due }
    requires fresh { knote.count ≡ 0 }
    ensures put { IsPut act knote knotes.old single.old knotes.new uses.now single.new }
{
    let timer = knotes.rewrite(key, knote);
    single.arm(rt, act, timer, due, 0);
}

/// A knote of a new ident, for which there is room.
fn place<N: Name, R: Wait>(
    rt: &R,
    act: u64,
    single: &mut Single<N>,
    knotes: &mut Knotes,
    uses: &mut Uses,
    knote: Knote,
    due: Sbt,
)
    requires { CanPlace act knote due knotes.old uses.old single.old }
    ensures put { IsPut act knote knotes.old single.old knotes.new uses.new single.new }
    ensures all { length uses.new ≡ length uses.old }
{
    let callout = uses.first_loose();
    let key = knotes.insert(knote, callout);
    uses.hold(callout, key);
    single.arm(rt, act, callout, due, 0);
}

impl Kq<Brand> {
    /// A list with room for 1 to 1024 knotes, before it is opened. Its name is its own, whatever type it is opened with. It
    /// and [`Kq::open`] take all memory; no later call takes any.
    pub fn boot(alloc: Global, knotes: u32) -> Result<KqFresh, NoMemory>
        requires some { 1 ≤ knotes }
        requires limit { knotes ≤ 1024 }
        ensures { IfOk result (λ fresh. fresh.callouts ≡ knotes) }
    {
        KqFresh::boot(alloc, knotes)
    }
}

impl<N: Name> Kq<N> {
    /// The empty list at time 0, over a running service. `NoMemory` where its opening finds no room.
    pub fn open(alloc: Global, fresh: KqFresh) -> Result<Kq<N>, NoMemory>
        requires { fresh.name ≡ N.name }
        ensures { IfOk result (IsOpened fresh.callouts) }
    {
        let KqFresh {
            single,
            room,
            knotes,
            uses,
        } = fresh;
        let single = Single::open(alloc, single)?;
        Ok(Kq {
            single,
            clock: Sbt::zero(),
            room,
            work: 0,
            knotes,
            uses,
        })
    }

    /// Adds a knote that expires behind each span, or once alone, in the place of an old one of its ident.
    #[tactic(auto, using(co_single::proofs::OfAct::none_adds))]
    pub fn add<R: Wait>(&mut self, rt: &R, ident: u64, value: u64, unit: Unit, oneshot: bool) -> Add
        requires work { self.old.work < 2 ^ 62 }
        ensures answer { result ≡ add_answer self.old.room self.old.list ident (span_of value unit) }
        ensures list { self.new.list ≡ added self.old.room self.old.list ident (span_of value unit) oneshot }
        ensures room { self.new.room ≡ self.old.room }
        ensures work { self.new.work ≡ self.old.work + 1 }
        ensures fires { NothingFires self.old.passes self.new.passes }
        ensures entries { AddsEntries self.old.passes self.old.work self.new.passes }
    {
        let act = self.work;
        self.work += 1;
        let Some(span) = span_of(value, unit) else {
            return Add::BadValue;
        };
        let knote = begun(self.clock, ident, span, oneshot);
        let due = self.clock.sat_add(span);
        match self.knotes.find(ident) {
            Some(key) => {
                replace(
                    rt,
                    act,
                    &mut self.single,
                    &mut self.knotes,
                    &self.uses,
                    key,
                    knote,
                    due,
                );
            }
            None => {
                if self.knotes.len() >= self.room as usize {
                    return Add::Full;
                }
                place(
                    rt,
                    act,
                    &mut self.single,
                    &mut self.knotes,
                    &mut self.uses,
                    knote,
                    due,
                );
            }
        }
        Add::Added
    }

    /// Deletes the knote of an ident; the answer is the expirations that no event has told, or None where there is no knote.
    pub fn delete(&mut self, ident: u64) -> Option<u64>
        ensures answer { result ≡ deleted_count self.old.list ident }
        ensures list { self.new.list ≡ deleted self.old.list ident }
        ensures room { self.new.room ≡ self.old.room }
        ensures work { self.new.work ≡ self.old.work }
        ensures passes { self.new.passes ≡ self.old.passes }
    {
        let key = self.knotes.find(ident)?;
        let slot = self.knotes.remove(key);
        self.uses.release(&slot);
        Some(slot.knote.count)
    }

    /// Tells the expirations of the first knote that has any, by rising ident; None where none has.
    fn tell(&mut self) -> Option<Event>
        ensures room { self.new.room ≡ self.old.room }
        ensures work { self.new.work ≡ self.old.work }
        ensures passes { self.new.passes ≡ self.old.passes }
        ensures clock { self.new.list.clock ≡ self.old.list.clock }
        ensures some { IfSome result (λ event. TellsOne self.old.list.knotes event self.new.list.knotes) }
        ensures none { IfNone result ((self.new.list ≡ self.old.list) × HasNoEvent self.old.list.knotes) }
    {
        let key = self.knotes.first_ready()?;
        if self.knotes.is_once(key) {
            let slot = self.knotes.tell_once(key);
            self.uses.release(&slot);
            return Some(Event {
                ident: slot.knote.ident,
                count: slot.knote.count,
            });
        }
        Some(self.knotes.tell_again(key))
    }

    /// Writes the knotes with expirations, by rising ident, as many as there is room for; the answer is how many. Each
    /// begins anew, and a oneshot one is gone.
    pub fn events(&mut self, out: &mut [Event]) -> usize
        ensures count { result ≡ length (events self.old.list (length out.old)) }
        ensures told { take result out.new ≡ events self.old.list (length out.old) }
        ensures list { self.new.list ≡ delivered self.old.list (length out.old) }
        ensures room { self.new.room ≡ self.old.room }
        ensures work { self.new.work ≡ self.old.work }
        ensures passes { self.new.passes ≡ self.old.passes }
    {
        let mut count = 0;
        while count < out.len() {
            let Some(event) = self.tell() else {
                return count;
            };
            out[count] = event;
            count += 1;
        }
        count
    }

    /// Brings the clock to the time `now`, in units of 2^-32 s, if that is later. Each knote whose time has come
    /// expires once; the answer is their number.
    pub fn tick<R: Wait>(&mut self, rt: &R, now: Sbt) -> u32
        requires work { self.old.work < 2 ^ 62 }
        ensures answer { result ≡ expirations self.old.list now }
        ensures list { self.new.list ≡ ticked self.old.list now }
        ensures room { self.new.room ≡ self.old.room }
        ensures work { self.new.work ≡ self.old.work + 1 }
        ensures fires { FiresCounted self.old now result self.new }
        ensures entries { AddsEntries self.old.passes self.old.work self.new.passes }
    {
        let act = self.work;
        self.work += 1;
        clear_stale(rt, act, &mut self.single, &mut self.uses);
        let count = self.single.scan(rt, act, now);
        self.clock = later(self.clock, now);
        serve_all(
            rt,
            act,
            &mut self.single,
            &mut self.knotes,
            &self.uses,
            self.clock,
        );
        count
    }

    /// How many adds and ticks there were.
    pub fn work(&self) -> u64
        ensures { result ≡ self.now.work }
    {
        self.work
    }

    /// Ends the service. Its final histories are what its one actor has seen, and each of their entries is that actor's, whose
    /// number is 0.
    pub fn close<R: Wait>(self, rt: &R) -> Closing
        ensures name { result.name ≡ N.name }
        ensures timers { result.timers ≡ self.passes.timers }
        ensures cpus { result.cpus ≡ self.passes.cpus }
        ensures actors { AreOfActor 0 result.timers result.cpus }
    {
        self.single.close(rt)
    }
}
