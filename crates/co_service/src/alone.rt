//! Calls of one who has the service to himself: no lock is taken and nobody is woken, since nobody can wait.
//!
//! Where a CPU's desk doesn't answer, the locked call is made; a call on a callout goes on to the next desk.
ghost use Rattle.std.specs.Prelude.{◌≡◌, ◌<◌, length, true};
ghost use Rattle.std.specs.Option.{option_copied};
ghost use Rattle.co_lock.specs.Covers.{covers};
ghost use Rattle.co_object.specs.Journal.{scanner};
ghost use Rattle.co_object.specs.Queue.{Due};
ghost use Rattle.co_desk.specs.Call.{IsCalled, NamesCpu, told_notes};
ghost use Rattle.co_desk.specs.Ends.{IsFinished, finished_notes};
ghost use Rattle.co_desk.specs.Outcomes.{IsScan};
ghost use Rattle.co_desk.specs.Params.{actors_of, spec_at};
ghost use Rattle.co_desk.specs.Services.{IsEnded, IsFree, IsServing, taken_of};
ghost use Rattle.co_desk.specs.Serving.{Runs};
ghost use Rattle.co_desk.specs.Views.{AreOf};
ghost use Rattle.co_desk.specs.Asked.{IsAsked, IsEndTried, IsStarted};
ghost use Rattle.co_service.specs.Kept.{KeepsAlone, KeepsFree, KeepsTaken, MayScan, MayStart, MayTryEnd};

use crate::Service;
use co_desk::{Finished, Moving, Name, Passes, Popped, Scanned, Told};
use co_lock::Hold;
use co_object::CallOp;
use co_sbt::Sbt;
use std::sync::Wait;

impl<N: Name> Service<N> {
    /// A scan on the CPU's desk. None where the desk is of another CPU.
    #[inline(always)]
    fn scan_here(&mut self, passes: &mut Passes, cpu: u32, act: u64, now: Sbt) -> Option<Scanned>
        requires { MayScan N.name self.old passes.old cpu }
        ensures params { self.new ≡ self.old }
        ensures asked { IsAsked passes.old result (λ out. IsScan passes.old cpu act now out passes.new) passes.new }
    {
        let desk = self.desks[cpu as usize].desk.get_mut();
        desk.scan(&self.places, passes, cpu, act, now)
    }

    /// What is due at this CPU has come due, as with [`Service::scan`].
    #[inline(always)]
    pub fn scan_alone<R: Wait>(
        &mut self,
        rt: &R,
        passes: &mut Passes,
        cpu: u32,
        act: u64,
        now: Sbt,
    ) -> Scanned
        requires cpu { cpu < self.old.cpus }
        requires passes { AreOf N.name self.old passes.old }
        requires scanner { passes.old.actor ≡ scanner (actors_of self.old) cpu }
        ensures scanned { IsScan passes.old cpu act now result passes.new }
        ensures kept { KeepsAlone N.name self.old self.new passes.old passes.new }
    {
        if let Some(out) = self.scan_here(passes, cpu, act, now) {
            return out;
        }
        self.scan(rt, passes, cpu, act, now)
    }

    /// A start on the CPU's desk. None where the desk is of another CPU, or its journal has fewer Scans.
    #[inline(always)]
    fn next_here(
        &mut self,
        passes: &mut Passes,
        cpu: u32,
        act: u64,
        scans: u64,
        direct: bool,
    ) -> Option<Popped>
        requires { MayStart N.name self.old direct passes.old cpu }
        ensures params { self.new ≡ self.old }
        ensures asked { IsAsked passes.old result (λ out. IsStarted direct passes.old cpu act scans out passes.new) passes.new }
    {
        let desk = self.desks[cpu as usize].desk.get_mut();
        desk.next(&self.places, passes, cpu, act, scans, direct)
    }

    /// A start by the lock.
    ///
    /// It stands apart, since it is made only where scans are still to come.
    #[inline(never)]
    fn next_apart<R: Wait>(
        &self,
        rt: &R,
        passes: &mut Passes,
        cpu: u32,
        act: u64,
        scans: u64,
        direct: bool,
    ) -> Popped
        requires { MayStart N.name self.now direct passes.old cpu }
        ensures { IsStarted direct passes.old cpu act scans result passes.new }
    {
        self.pop(rt, passes, cpu, act, scans, direct)
    }

    /// The first callout that has come due goes into service, as with [`Service::pop`].
    #[inline(always)]
    pub fn pop_alone<R: Wait>(
        &mut self,
        rt: &R,
        passes: &mut Passes,
        cpu: u32,
        act: u64,
        scans: u64,
        direct: bool,
    ) -> Popped
        requires cpu { cpu < self.old.cpus }
        requires passes { AreOf N.name self.old passes.old }
        requires free { IsFree direct passes.old cpu }
        ensures params { self.new ≡ self.old }
        ensures started { IsStarted direct passes.old cpu act scans result passes.new }
        ensures kept { KeepsTaken N.name self.old passes.old.actor direct cpu (taken_of direct passes.old.actor act cpu result) passes.new }
    {
        if let Some(out) = self.next_here(passes, cpu, act, scans, direct) {
            return out;
        }
        self.next_apart(rt, passes, cpu, act, scans, direct)
    }

    /// The end of a service on the CPU's desk. False where the desk is of another CPU.
    #[inline(always)]
    fn end_here(
        &mut self,
        passes: &mut Passes,
        cpu: u32,
        act: u64,
        direct: bool,
        told: &mut Finished,
        gone: &mut Option<Moving<N>>,
    ) -> bool
        requires { MayTryEnd N.name self.old direct passes.old cpu gone.old }
        ensures params { self.new ≡ self.old }
        ensures tried { IsEndTried direct passes.old cpu act result told.new gone.new passes.new }
    {
        let desk = self.desks[cpu as usize].desk.get_mut();
        desk.end(&self.places, passes, cpu, act, direct, told, gone)
    }

    /// The end of a service by the lock.
    ///
    /// It stands apart, since a CPU's desk seldom is another's.
    #[inline(never)]
    fn end_apart<R: Wait>(
        &self,
        rt: &R,
        passes: &mut Passes,
        cpu: u32,
        act: u64,
        direct: bool,
        told: &mut Finished,
        gone: &mut Option<Moving<N>>,
    )
        requires { MayTryEnd N.name self.now direct passes.old cpu gone.old }
        ensures { (d : Due) → IsServing direct passes.old cpu d (Runs d.n) → IsFinished direct passes.old cpu act d told.new gone.new passes.new }
    {
        self.end_found(rt, passes, cpu, act, direct, told, gone);
    }

    /// The end of a service on the CPU's desk, and where it doesn't answer by the lock.
    #[inline(always)]
    fn end_found_alone<R: Wait>(
        &mut self,
        rt: &R,
        passes: &mut Passes,
        cpu: u32,
        act: u64,
        direct: bool,
        told: &mut Finished,
        gone: &mut Option<Moving<N>>,
    )
        requires { MayTryEnd N.name self.old direct passes.old cpu gone.old }
        ensures params { self.new ≡ self.old }
        ensures finished { (d : Due) → IsServing direct passes.old cpu d (Runs d.n) → IsFinished direct passes.old cpu act d told.new gone.new passes.new }
    {
        if self.end_here(passes, cpu, act, direct, told, gone) {
            return;
        }
        self.end_apart(rt, passes, cpu, act, direct, told, gone);
    }

    /// A service is over, as with [`Service::end_into`].
    #[inline(always)]
    pub fn end_alone<R: Wait>(
        &mut self,
        rt: &R,
        passes: &mut Passes,
        cpu: u32,
        act: u64,
        direct: bool,
        told: &mut Finished,
    )
        requires cpu { cpu < self.old.cpus }
        requires passes { AreOf N.name self.old passes.old }
        requires serves { (d : Due) × IsServing direct passes.old cpu d (Runs d.n) }
        ensures params { self.new ≡ self.old }
        ensures ended { (d : Due) → IsServing direct passes.old cpu d (Runs d.n) → IsEnded direct passes.old cpu act d told.new.out.reply (finished_notes passes.old.actor act told.new) passes.new }
        ensures kept { KeepsFree N.name self.old passes.old.actor direct cpu passes.new }
    {
        let mut leaves = None;
        self.end_found_alone(rt, passes, cpu, act, direct, told, &mut leaves);
        self.land_ended(rt, passes, act, leaves, told);
    }

    /// A call on callout `i`, as with [`Service::call_into`].
    #[inline(always)]
    pub fn call_alone<R: Wait>(
        &mut self,
        rt: &R,
        passes: &mut Passes,
        act: u64,
        i: u32,
        op: &CallOp,
        hold: Option<&Hold<'_>>,
        told: &mut Told,
    )
        requires passes { AreOf N.name self.old passes.old }
        requires callout { i < length self.old.specs }
        requires cpu { NamesCpu self.old.cpus op.now }
        requires covered { covers (option_copied hold) (spec_at self.old i) op.now ≡ true }
        ensures called { IsCalled passes.old act i op.now told.new.out.reply (told_notes passes.old.actor act i op.now told.new) passes.new }
        ensures kept { KeepsAlone N.name self.old self.new passes.old passes.new }
    {
        let _ = hold;
        let mut leaves = None;
        let mut cpu = self.hint(i);
        for _ in rt.forever() {
            let desk = self.desks[cpu].desk.get_mut();
            let here = desk.call(&self.places, passes, act, i, op, told, &mut leaves);
            if here {
                self.land_left(rt, passes, act, i, leaves, told);
                return;
            }
            cpu = self.next_desk(cpu);
        }
        unreachable!()
    }
}
