//! The start of a service, of the CPU or of its interrupt.
ghost use Rattle.std.specs.Prelude.{◌<◌, false, true};
ghost use Rattle.co_desk.specs.Services.{FollowsScans, IsFree, IsTaken, taken_of};
ghost use Rattle.co_desk.specs.Views.{AreOf, journal_seen};
ghost use Rattle.co_desk.specs.Asked.{IsStarted};
ghost use Rattle.co_service.specs.Kept.{KeepsTaken};

use crate::Service;
use co_desk::{Desk, Name, Passes, Popped, Taken};
use std::sync::Wait;

impl<N: Name> Service<N> {
    /// The first callout that has come due goes into the CPU's service. It waits until the CPU's journal has so many Scans,
    /// which the desk counts. That they come no clause says.
    ///
    /// The passes are those of the CPU's actor, whose own entries have nothing in service.
    pub fn next<R: Wait>(
        &self,
        rt: &R,
        passes: &mut Passes,
        cpu: u32,
        act: u64,
        scans: u64,
    ) -> Taken
        requires cpu { cpu < self.now.cpus }
        requires passes { AreOf N.name self.now passes.old }
        requires free { IsFree false passes.old cpu }
        ensures taken { IsTaken false passes.old cpu act result passes.new }
        ensures scans { FollowsScans scans (journal_seen passes.new cpu) }
        ensures kept { KeepsTaken N.name self.now passes.old.actor false cpu result passes.new }
    {
        let actor = passes.actor();
        let popped = self.pop(rt, passes, cpu, act, scans, false);
        popped.answer(actor, act, cpu, false)
    }

    /// The first direct callout that has come due goes into the service of the CPU's interrupt.
    ///
    /// The passes are those of the interrupt, whose own entries have nothing in service.
    pub fn next_direct<R: Wait>(&self, rt: &R, passes: &mut Passes, cpu: u32, act: u64) -> Taken
        requires cpu { cpu < self.now.cpus }
        requires passes { AreOf N.name self.now passes.old }
        requires free { IsFree true passes.old cpu }
        ensures taken { IsTaken true passes.old cpu act result passes.new }
        ensures kept { KeepsTaken N.name self.now passes.old.actor true cpu result passes.new }
    {
        let actor = passes.actor();
        let popped = self.pop(rt, passes, cpu, act, 0, true);
        popped.answer(actor, act, cpu, true)
    }

    /// The same start, of the CPU's service or of its interrupt's where `direct`, once the journal has so many Scans. No note is made
    /// of it: for a caller that keeps none.
    #[inline(always)]
    pub fn pop<R: Wait>(
        &self,
        rt: &R,
        passes: &mut Passes,
        cpu: u32,
        act: u64,
        scans: u64,
        direct: bool,
    ) -> Popped
        requires cpu { cpu < self.now.cpus }
        requires passes { AreOf N.name self.now passes.old }
        requires free { IsFree direct passes.old cpu }
        ensures started { IsStarted direct passes.old cpu act scans result passes.new }
        ensures kept { KeepsTaken N.name self.now passes.old.actor direct cpu (taken_of direct passes.old.actor act cpu result) passes.new }
    {
        for _ in rt.forever() {
            let locked = &self.desks[cpu as usize];
            let mut desk = locked
                .changed
                .wait_while(rt, locked.desk.lock(rt), |desk: &mut Desk<N>| -> bool {
                    desk.lacks(scans)
                });
            if let Some(out) = desk.next(&self.places, passes, cpu, act, scans, direct) {
                return out;
            }
        }
        unreachable!()
    }
}
