//! The end of a service, of the CPU or of its interrupt.
ghost use Rattle.std.specs.Prelude.{◌<◌, ℕ, Bool, false, true};
ghost use Rattle.std.specs.declared.option.Option.TheVariants.{None};
ghost use Rattle.co_object.specs.Queue.{Due};
ghost use Rattle.co_desk.specs.Call.{notes_in};
ghost use Rattle.co_desk.specs.Ends.{IsFinished, finished_notes};
ghost use Rattle.co_desk.specs.Moving.{IsOfService};
ghost use Rattle.co_desk.specs.Services.{IsEnded, IsServing};
ghost use Rattle.co_desk.specs.Serving.{Runs};
ghost use Rattle.co_desk.specs.Views.{AreOf, PassesView};
ghost use Rattle.co_service.specs.Kept.{KeepsFree, MayTryEnd};

use crate::Service;
use co_desk::{Finished, Made, Moving, Name, Passes};
use std::sync::Wait;

impl<N: Name> Service<N> {
    /// The end of a service on its desk, of the CPU or of its interrupt where `direct`. What was done and what leaves go to their places.
    #[inline(always)]
    pub(crate) fn end_found<R: Wait>(
        &self,
        rt: &R,
        passes: &mut Passes,
        cpu: u32,
        act: u64,
        direct: bool,
        told: &mut Finished,
        gone: &mut Option<Moving<N>>,
    )
        requires { MayTryEnd N.name self.now direct passes.old cpu gone.old }
        ensures { (d : Due) → IsServing direct passes.old cpu d (Runs d.n) → IsFinished direct passes.old cpu act d told.new gone.new passes.new }
    {
        for _ in rt.forever() {
            let locked = &self.desks[cpu as usize];
            let ended = locked
                .desk
                .lock(rt)
                .end(&self.places, passes, cpu, act, direct, told, gone);
            if ended {
                locked.changed.notify_all();
                return;
            }
        }
        unreachable!()
    }

    /// What left with the end of a service lands.
    #[inline(always)]
    pub(crate) fn land_ended<R: Wait>(
        &self,
        rt: &R,
        passes: &mut Passes,
        act: u64,
        leaves: Option<Moving<N>>,
        told: &mut Finished,
    )
        requires passes { AreOf N.name self.now passes.old }
        requires leaving { IsOfService passes.old.params told.old.i leaves }
        ensures { (direct : Bool) (p : PassesView) (cpu : ℕ) (d : Due) → IsFinished direct p cpu act d told.old leaves passes.old → IsEnded direct p cpu act d told.new.out.reply (finished_notes p.actor act told.new) passes.new }
    {
        if let Some(moving) = leaves {
            told.tell_insert(self.land(rt, passes, act, moving));
        }
    }

    /// The CPU's service is over: the function has returned, or was skipped. Where an arming at another CPU waited for this
    /// end, the callout lands there.
    ///
    /// The passes are those of the CPU's actor, whose own entries have a callout in service that doesn't wait for its lock.
    pub fn end<R: Wait>(&self, rt: &R, passes: &mut Passes, cpu: u32, act: u64) -> Made
        requires cpu { cpu < self.now.cpus }
        requires passes { AreOf N.name self.now passes.old }
        requires serves { (d : Due) × IsServing false passes.old cpu d (Runs d.n) }
        ensures ended { (d : Due) → IsServing false passes.old cpu d (Runs d.n) → IsEnded false passes.old cpu act d result.reply (notes_in result.notes) passes.new }
        ensures kept { KeepsFree N.name self.now passes.old.actor false cpu passes.new }
    {
        let actor = passes.actor();
        let mut told = Finished::none();
        self.end_into(rt, passes, cpu, act, false, &mut told);
        told.answer(actor, act)
    }

    /// The service of the CPU's interrupt is over: the function has returned. Where an arming at another CPU waited for this end, the
    /// callout lands there.
    ///
    /// The passes are those of the interrupt, whose own entries have a direct callout in service.
    pub fn end_direct<R: Wait>(&self, rt: &R, passes: &mut Passes, cpu: u32, act: u64) -> Made
        requires cpu { cpu < self.now.cpus }
        requires passes { AreOf N.name self.now passes.old }
        requires serves { (d : Due) × IsServing true passes.old cpu d (Runs d.n) }
        ensures ended { (d : Due) → IsServing true passes.old cpu d (Runs d.n) → IsEnded true passes.old cpu act d result.reply (notes_in result.notes) passes.new }
        ensures kept { KeepsFree N.name self.now passes.old.actor true cpu passes.new }
    {
        let actor = passes.actor();
        let mut told = Finished::none();
        self.end_into(rt, passes, cpu, act, true, &mut told);
        told.answer(actor, act)
    }

    /// The same end, of the CPU's service or of its interrupt's where `direct`. What was done goes to its place, and no note is made of
    /// it: for a caller that keeps none.
    #[inline(always)]
    pub fn end_into<R: Wait>(
        &self,
        rt: &R,
        passes: &mut Passes,
        cpu: u32,
        act: u64,
        direct: bool,
        told: &mut Finished,
    )
        requires cpu { cpu < self.now.cpus }
        requires passes { AreOf N.name self.now passes.old }
        requires serves { (d : Due) × IsServing direct passes.old cpu d (Runs d.n) }
        ensures ended { (d : Due) → IsServing direct passes.old cpu d (Runs d.n) → IsEnded direct passes.old cpu act d told.new.out.reply (finished_notes passes.old.actor act told.new) passes.new }
        ensures kept { KeepsFree N.name self.now passes.old.actor direct cpu passes.new }
    {
        let mut leaves = None;
        self.end_found(rt, passes, cpu, act, direct, told, &mut leaves);
        self.land_ended(rt, passes, act, leaves, told);
    }
}
