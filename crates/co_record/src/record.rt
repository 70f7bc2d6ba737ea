//! What a callout knows of itself, wherever it is.
ghost use Rattle.std.specs.Prelude.{◌≡◌, false, is_some};
ghost use Rattle.std.specs.declared.option.Option.TheVariants.{None};
ghost use Rattle.co_object.specs.Arm.{is_picked, is_draining};
ghost use Rattle.co_object.specs.Stand.{is_idle, off};
ghost use Rattle.co_record.specs.Deferred.{deferred_of};
ghost use Rattle.co_record.specs.Fresh.{fresh};
ghost use Rattle.co_record.specs.Paired.{IsPaired};
ghost use Rattle.co_record.specs.Same.{};
ghost use Rattle.co_record.specs.Same.{SameCallout};
ghost use Rattle.co_record.specs.Standing.{state_of, moved, as_moved};

use crate::{DeferredArming, Slot};
use co_object::Spec;
use co_sbt::Sbt;

/// What a callout knows of itself, wherever it is: its flags, its last arming and the number of its armings.
#[derive(Clone, Copy)]
pub struct Record {
    pub(crate) i: u32,
    pub(crate) spec: Spec,
    /// Not retired.
    pub(crate) live: bool,
    /// Armed, and in its CPU's queue.
    pub(crate) pending: bool,
    pub(crate) active: bool,
    /// The service that has it called its function.
    pub(crate) processed: bool,
    /// Armed on another CPU than the one that has it in service, whose slot has the arming.
    pub(crate) deferred: bool,
    /// A reset has given it a function.
    pub(crate) known: bool,
    pub(crate) time: Sbt,
    pub(crate) prec: Sbt,
    pub(crate) func: u32,
    pub(crate) arg: u64,
    pub(crate) home: u32,
    /// The number of accepted armings.
    pub(crate) made: u64,
}

impl Record {
    /// The record of callout `i`, live, not armed and at home on CPU 0. Its next arming has the number `made`.
    pub fn new(i: u32, spec: Spec, made: u64) -> Record
        ensures { result ≡ fresh i spec made }
    {
        Record {
            i,
            spec,
            live: true,
            pending: false,
            active: false,
            processed: false,
            deferred: false,
            known: false,
            time: Sbt::zero(),
            prec: Sbt::zero(),
            func: 0,
            arg: 0,
            home: 0,
            made,
        }
    }

    /// The callout's number.
    pub fn number(&self) -> u32
        ensures { result ≡ self.now.i }
    {
        self.i
    }

    /// Whether the interrupt services it, and not the CPU's own actor.
    pub fn is_direct(&self) -> bool
        ensures { result ≡ self.now.spec.direct }
    {
        self.spec.direct
    }

    /// When the last arming in the record is due, or 0 before the first. A deferred arming is in the slot.
    pub fn time(&self) -> Sbt
        ensures { result ≡ self.now.time }
    {
        self.time
    }

    /// The CPU of the last arming in the record, or 0 before the first.
    pub fn home(&self) -> u32
        ensures { result ≡ self.now.home }
    {
        self.home
    }

    /// The number of accepted armings, so the number of the last one is one less.
    pub fn made(&self) -> u64
        ensures { result ≡ self.now.made }
    {
        self.made
    }

    /// Whether it stands in its CPU's queue.
    pub fn is_pending(&self) -> bool
        ensures { result ≡ self.now.pending }
    {
        self.pending
    }

    /// Whether an arming stands in a queue, or waits for the end of a service.
    #[inline]
    pub fn is_armed(&self, slot: &Slot) -> bool
        ensures { result ≡ is_some (state_of self.now slot.now).armed }
    {
        self.pending || self.deferred
    }

    /// Whether no service has it.
    #[inline]
    pub fn is_idle(&self, slot: &Slot) -> bool
        ensures { result ≡ is_idle (state_of self.now slot.now).run }
    {
        !slot.holds(self.i)
    }

    /// Whether its service waits for its lock.
    #[inline]
    pub(crate) fn is_picked(&self, slot: &Slot) -> bool
        ensures { result ≡ is_picked (state_of self.now slot.now).run }
    {
        slot.holds(self.i) && !self.processed && !slot.cancel
    }

    /// Whether a drain waits for the end of the service that has it.
    #[inline]
    pub(crate) fn is_draining(&self, slot: &Slot) -> bool
        ensures { result ≡ is_draining (state_of self.now slot.now) }
    {
        slot.holds(self.i) && (slot.waiting || slot.drain.is_some())
    }

    /// The CPU in whose queue it stands, or None where it stands in none.
    #[inline]
    pub(crate) fn off(&self, slot: &Slot) -> Option<u32>
        requires { IsPaired self.now slot.now }
        ensures { result ≡ off (state_of self.now slot.now) }
    {
        if self.pending { Some(self.home) } else { None }
    }

    /// The arming that waits for the end of the service, as the slot has it, or None where none waits.
    pub fn deferred(&self, slot: &Slot) -> Option<DeferredArming>
        requires { IsPaired self.now slot.now }
        ensures { result ≡ deferred_of (state_of self.now slot.now) }
    {
        if self.deferred {
            Some(slot.moving)
        } else {
            None
        }
    }

    /// The CPU of an arming that names none.
    #[inline]
    pub(crate) fn base(&self, slot: &Slot) -> u32
        ensures { result ≡ (state_of self.now slot.now).home }
    {
        if self.deferred {
            slot.moving.cpu
        } else {
            self.home
        }
    }

    /// The function and argument of the last reset.
    pub(crate) fn handler(&self, slot: &Slot) -> Option<(u32, u64)>
        ensures { result ≡ (state_of self.now slot.now).last }
    {
        if !self.known {
            return None;
        }
        if self.deferred {
            Some((slot.moving.func, slot.moving.arg))
        } else {
            Some((self.func, self.arg))
        }
    }

    /// The arming of a move becomes the record's own.
    #[inline]
    pub(crate) fn take_up(&mut self, to: &DeferredArming)
        ensures { self.new ≡ moved self.old to.now }
    {
        self.pending = true;
        self.deferred = false;
        self.time = to.time;
        self.prec = to.prec;
        self.func = to.func;
        self.arg = to.arg;
        self.home = to.cpu;
    }

    /// A move that waits for the end of the service counts as made.
    #[inline]
    pub(crate) fn take_up_deferred(&mut self, slot: &Slot)
        ensures { self.new ≡ as_moved self.old slot.now }
    {
        if self.deferred {
            self.take_up(&slot.moving);
        }
    }

    /// Nothing is armed any more.
    #[inline]
    pub(crate) fn disarm(&mut self, slot: &Slot)
        requires paired { IsPaired self.old slot.now }
        ensures outcome { state_of self.new slot.now
            ≡ record (state_of self.old slot.now) { armed = None; active = false } }
        ensures callout { SameCallout self.old slot.now self.new slot.now }
    {
        self.take_up_deferred(slot);
        self.pending = false;
        self.active = false;
    }
}
