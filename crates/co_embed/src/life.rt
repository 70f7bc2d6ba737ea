//! Callouts that come and go.
ghost use Rattle.std.specs.Prelude.{◌≡◌, ◌≤◌};
ghost use Rattle.co_embed.specs.Lives.{CarriedAnswers, FiniAnswers, InitAnswers, LandAnswers, is_for, spec_of};

use crate::parcel::{lock_of, unpack};
use crate::words::set_word;
use crate::{CalloutParcel, Embed, Refusal};
use co_object::{LockUse, Spec};
use co_record::{Carried, Record};
use co_wheel::Parcel;

/// What is fixed of a callout: its lock's kind, 0 none, 1 a mutex, 2 a reader-writer lock, 3 one that is taken to read, its
/// number in the program, and whether (1) the function gives it back itself or (0) not.
#[repr(C)]
#[derive(Clone, Copy, Debug, PartialEq, Eq)]
pub struct CalloutAttr {
    pub lock_kind: u32,
    pub lock: u32,
    pub returns_unlocked: u32,
}

/// The attributes as the callout alone has them, where it may have them: one without a lock does not give it back, and one
/// that the interrupt services has none.
fn spec_of(attr: &CalloutAttr, direct: bool) -> Option<Spec>
    ensures { result ≡ spec_of attr.now direct }
{
    let lock = lock_of(attr.lock_kind, attr.lock)?;
    let returns_unlocked = attr.returns_unlocked != 0;
    if attr.lock_kind == 0 && returns_unlocked {
        return None;
    }
    if attr.lock_kind != 0 && direct {
        return None;
    }
    Some(Spec {
        lock,
        returns_unlocked,
        direct,
    })
}

impl Embed {
    /// Callout `id` comes to this CPU as it is made: not armed, and with no function.
    ///
    /// `Invalid` exactly where there is no such id, or it may not have the attributes, else `Exists` exactly where it is
    /// here. Each of the last ids that `new` was told of is one that the interrupt services, and has no lock.
    pub fn init(&mut self, id: u32, attr: &CalloutAttr) -> Result<(), Refusal>
        ensures { InitAnswers result self.old self.new id attr.now }
    {
        if id as usize >= self.wheel.size() {
            return Err(Refusal::Invalid);
        }
        let Some(spec) = spec_of(attr, self.wheel.queue().is_direct(id)) else {
            return Err(Refusal::Invalid);
        };
        if self.wheel.holds(id) {
            return Err(Refusal::Exists);
        }
        self.wheel.put(Record::new(id, spec, 0));
        Ok(())
    }

    /// Callout `id` goes, and its id may come again. `NotHere` exactly where it is not here, else `Busy` exactly where it is
    /// armed or in service.
    pub fn fini(&mut self, id: u32) -> Result<(), Refusal>
        ensures { FiniAnswers result self.old self.new id }
    {
        if !self.wheel.holds(id) {
            return Err(Refusal::NotHere);
        }
        if !self.wheel.is_free(id) {
            return Err(Refusal::Busy);
        }
        self.wheel.remove(id);
        Ok(())
    }

    /// The callout of a parcel comes here and enters the queue. The answer is the time at which it stands there: when it is
    /// due, or that of the last advance where that is later.
    ///
    /// `Invalid` exactly where the numbers are no parcel's, it is for another CPU, its id is none here, or of those that the
    /// interrupt services where it is not or the other way round; else `Exists` exactly where the callout is here.
    pub fn land(&mut self, parcel: &CalloutParcel) -> Result<u64, Refusal>
        ensures { LandAnswers result self.old self.new parcel.now }
    {
        match unpack(parcel) {
            None => Err(Refusal::Invalid),
            Some(carried) => self.land_carried(&carried, parcel.func),
        }
    }

    /// The same of what a parcel carries, with its function.
    fn land_carried(&mut self, carried: &Carried, func: u64) -> Result<u64, Refusal>
        requires { 1 ≤ carried.now.made }
        ensures { CarriedAnswers result self.old self.new carried.now func }
    {
        if !self.is_for(carried) {
            return Err(Refusal::Invalid);
        }
        if self.wheel.holds(carried.i) {
            return Err(Refusal::Exists);
        }
        let at = self.wheel.land(Parcel::of_carried(carried));
        set_word(&mut self.funcs, carried.i, func);
        Ok(at.raw())
    }

    /// Whether what is carried is for this CPU, by an id that is one here, and of its lane.
    fn is_for(&self, carried: &Carried) -> bool
        ensures { result ≡ is_for self.now carried.now }
    {
        carried.cpu == self.wheel.cpu()
            && (carried.i as usize) < self.wheel.size()
            && carried.spec.direct == self.wheel.queue().is_direct(carried.i)
    }
}
