//! Which calls of a source or a sink fail.
ghost use Rattle.std.specs.Prelude.{◌≡◌, ◌≤◌, ◌↔◌, Contains, IsErr, IfOk, OnOk, OnErr};
ghost use Rattle.co_io.specs.Counts.{counted};

use crate::source::Failed;
use co_sbt::{NoMemory, Seq};
use std::alloc::Global;

// Which calls fail, by their numbers from 0, how many were made, and how many of these failed.
#[derive(Drop)]
pub(crate) struct Calls {
    pub(crate) fails: Seq<u64>,
    pub(crate) made: u64,
    pub(crate) faults: u64,
}

impl Calls {
    pub(crate) fn new(alloc: Global, fails: &[u64]) -> Result<Calls, NoMemory>
        ensures { IfOk result (λ calls. calls ≡ record { fails = fails.now; made = 0; faults = 0 }) }
    {
        let fails = Seq::copy_of(alloc, fails)?;
        Ok(Calls {
            fails,
            made: 0,
            faults: 0,
        })
    }

    // One more call: does it fail?
    pub(crate) fn next(&mut self) -> Result<(), Failed>
        ensures failed { IsErr result ↔ Contains self.old.fails self.old.made }
        ensures ok { OnOk result (self.new ≡ record self.old { made = counted self.old.made }) }
        ensures err { OnErr result (self.new ≡ record self.old { made = counted self.old.made; faults = counted self.old.faults }) }
        ensures grows { self.old.faults ≤ self.new.faults }
    {
        let fails = self.fails.as_slice().contains(&self.made);
        self.made = self.made.saturating_add(1);
        if fails {
            self.faults = self.faults.saturating_add(1);
            Err(Failed)
        } else {
            Ok(())
        }
    }
}
