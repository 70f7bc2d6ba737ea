//! An armed callout that no service has, as plain fields.
ghost use Rattle.std.specs.Prelude.{◌≡◌, true, false};
ghost use Rattle.co_record.specs.Carried.{record_of, IsCarried};

use crate::Record;
use co_object::Spec;
use co_sbt::Sbt;

/// All that there is of an armed callout that no service has: what goes with it from CPU to CPU.
#[derive(Clone, Copy)]
pub struct Carried {
    /// The callout's number.
    pub i: u32,
    pub spec: Spec,
    pub active: bool,
    /// A reset has given it a function since it was made live.
    pub known: bool,
    /// When its arming is due.
    pub due: Sbt,
    pub prec: Sbt,
    pub func: u32,
    pub arg: u64,
    /// The CPU at which it is armed.
    pub cpu: u32,
    /// The number of accepted armings.
    pub made: u64,
}

impl Record {
    /// The fields of a record that is armed.
    pub fn carried(&self) -> Carried
        requires armed { IsCarried self.now }
        ensures { record_of result (self.now.processed) ≡ self.now }
    {
        Carried {
            i: self.i,
            spec: self.spec,
            active: self.active,
            known: self.known,
            due: self.time,
            prec: self.prec,
            func: self.func,
            arg: self.arg,
            cpu: self.home,
            made: self.made,
        }
    }

    /// The record of these fields.
    pub fn of_carried(carried: &Carried) -> Record
        ensures { result ≡ record_of carried.now false }
    {
        Record {
            i: carried.i,
            spec: carried.spec,
            live: true,
            pending: true,
            active: carried.active,
            processed: false,
            deferred: false,
            known: carried.known,
            time: carried.due,
            prec: carried.prec,
            func: carried.func,
            arg: carried.arg,
            home: carried.cpu,
            made: carried.made,
        }
    }
}
