//! The running service: each CPU's desk behind a lock of its own.
ghost use Rattle.std.specs.Prelude.{◌≡◌, ◌<◌, IfErr, IfOk, false, vec_len};
ghost use Rattle.std.specs.declared.option.Option.TheVariants.{Some};
ghost use Rattle.co_object.specs.Queue.{Due};
ghost use Rattle.co_object.specs.Journal.{scanner};
ghost use Rattle.co_lock.specs.Service.{hold_of};
ghost use Rattle.co_service.specs.Booted.{AreBooted};
ghost use Rattle.co_service.specs.Closing.{AreAll, AreEnded, AreEndedCpus, HasEach};
ghost use Rattle.co_service.specs.Fresh.{AreNamed};
ghost use Rattle.co_desk.specs.Outcomes.{IsScan};
ghost use Rattle.co_desk.specs.Params.{AreParams, actors_of, spec_at};
ghost use Rattle.co_desk.specs.Services.{IsBegun, IsLanded, IsServing};
ghost use Rattle.co_desk.specs.Serving.{Waits};
ghost use Rattle.co_desk.specs.Views.{AreOf};
ghost use Rattle.co_desk.specs.Asked.{IsAsked};
ghost use Rattle.co_service.specs.Kept.{Keeps, KeepsBegun, MayLand, MayScan};

use crate::Fresh;
use crate::closing::{Closing, Ending, check_each, end_all};
use crate::locked::{DeskHold, Inside, Locked, make_inside, open_desks};
use co_desk::{Desk, Inserted, Made, Moving, Name, Params, Passes, Places, Scanned};
use co_life::Shown;
use co_lock::Hold;
use co_object::Spec;
use co_sbt::{NoMemory, Sbt, Seq};
use std::alloc::Global;
use std::marker::{Brand, Model};
use std::sync::atomic::{AtomicU32, Ordering};
use std::sync::{Mutex, Wait};

/// The running service. Contracts see its parameters; its name is that of `N`.
#[derive(Drop)]
pub struct Service<N: Name> {
    pub(crate) places: Places,
    params: Shown<Params>,
    /// By CPU.
    pub(crate) desks: Vec<Locked<N>>,
    /// By callout: the CPU whose desk is asked first. No clause rests on it.
    pub(crate) hints: Vec<AtomicU32>,
    /// What the end needs. The lock is for the type alone: nothing of it is shared before the end.
    ending: Mutex<Ending<N>>,
}

impl<N: Name> Model for Service<N> {
    ghost use Rattle.std.specs.Prelude.{vec_len};
    ghost use Rattle.co_service.specs.Fresh.{IsService};
    ghost use Rattle.co_desk.specs.declared.params.Params.{Params as ParamsOf};

    ghost Value = { ParamsOf };

    ghost view = { λ s. s.params.value };

    ghost invariant = { λ s. IsService N.name s.places s.params.value (vec_len s.desks) };
}

impl Service<Brand> {
    /// A service before its locks, and each actor's passes of it, as [`Fresh::boot`] gives them. Its name is its own, whatever
    /// type it is opened with.
    pub fn boot(
        alloc: Global,
        version: u32,
        cpus: u32,
        buckets: u32,
        clients: u32,
        specs: &[Spec],
    ) -> Result<(Fresh, Seq<Passes>), NoMemory>
        requires { AreParams (record { version = version; clients = clients; cpus = cpus; buckets = buckets; specs = specs.now }) }
        ensures params { IfOk result (λ made. made.0.params ≡ record { version = version; clients = clients; cpus = cpus; buckets = buckets; specs = specs.now }) }
        ensures passes { IfOk result (λ made. AreBooted made.0.name made.0.params made.1) }
        ensures named { IfOk result (λ made. AreNamed made.0.name made.0.params) }
    {
        Fresh::boot(alloc, version, cpus, buckets, clients, specs)
    }
}

impl<N: Name> Service<N> {
    /// The running service: the desks go behind their locks. It keeps the name and the parameters.
    pub fn open(alloc: Global, fresh: Fresh) -> Result<Service<N>, NoMemory>
        requires { fresh.name ≡ N.name }
        ensures { IfOk result (λ service. service ≡ fresh.params) }
    {
        let Fresh {
            places,
            params,
            all_parts,
        } = fresh;
        let Inside {
            desks,
            hints,
            ending,
        } = make_inside(alloc, &params, all_parts)?;
        Ok(Service {
            places,
            params: Shown::of(&params),
            desks,
            hints,
            ending,
        })
    }

    /// A callout comes to the desk of the CPU at which it is armed.
    #[inline(always)]
    fn land_once<R: Wait>(
        &self,
        rt: &R,
        passes: &mut Passes,
        act: u64,
        moving: Moving<N>,
    ) -> Result<Inserted, Moving<N>>
        requires { MayLand N.name self.now passes.old moving }
        ensures back { IfErr result (λ m. (m ≡ moving) × (passes.new ≡ passes.old)) }
        ensures landed { IfOk result (λ x. IsLanded passes.old act moving.i moving.target x passes.new) }
    {
        let i = moving.callout();
        let cpu = moving.cpu();
        let Some(locked) = self.desks.get(cpu as usize) else {
            return Err(moving);
        };
        let mut desk = locked.desk.lock(rt);
        let landed = desk.land(&self.places, passes, act, moving);
        if landed.is_ok() {
            if let Some(hint) = self.hints.get(i as usize) {
                hint.store(cpu, Ordering::SeqCst);
            }
        }
        landed
    }

    /// A callout comes to its CPU. It is tried again where that desk can't take it.
    pub(crate) fn land<R: Wait>(
        &self,
        rt: &R,
        passes: &mut Passes,
        act: u64,
        moving: Moving<N>,
    ) -> Inserted
        requires { MayLand N.name self.now passes.old moving }
        ensures { IsLanded passes.old act moving.i moving.target result passes.new }
    {
        let mut moving = moving;
        for _ in rt.forever() {
            match self.land_once(rt, passes, act, moving) {
                Ok(landed) => return landed,
                Err(back) => moving = back,
            }
        }
        unreachable!()
    }

    /// A scan on the CPU's desk, by its lock. None where the desk is of another CPU.
    #[inline(always)]
    fn scan_locked<R: Wait>(
        &self,
        rt: &R,
        passes: &mut Passes,
        cpu: u32,
        act: u64,
        now: Sbt,
    ) -> Option<Scanned>
        requires { MayScan N.name self.now passes.old cpu }
        ensures { IsAsked passes.old result (λ out. IsScan passes.old cpu act now out passes.new) passes.new }
    {
        let locked = &self.desks[cpu as usize];
        let out = locked
            .desk
            .lock(rt)
            .scan(&self.places, passes, cpu, act, now);
        if out.is_some() {
            locked.changed.notify_all();
        }
        out
    }

    /// What is due at this CPU has come due. It waits for the desk's lock.
    ///
    /// The passes are those of the actor that scans this CPU: its own, and from version 2 on its interrupt. It still has in
    /// service what it had.
    pub fn scan<R: Wait>(
        &self,
        rt: &R,
        passes: &mut Passes,
        cpu: u32,
        act: u64,
        now: Sbt,
    ) -> Scanned
        requires cpu { cpu < self.now.cpus }
        requires passes { AreOf N.name self.now passes.old }
        requires scanner { passes.old.actor ≡ scanner (actors_of self.now) cpu }
        ensures scanned { IsScan passes.old cpu act now result passes.new }
        ensures kept { Keeps N.name self.now passes.old passes.new }
    {
        for _ in rt.forever() {
            if let Some(out) = self.scan_locked(rt, passes, cpu, act, now) {
                return out;
            }
        }
        unreachable!()
    }

    /// The lock of the callout that the CPU has in service is held, in the mode that its spec wants.
    ///
    /// The passes are those of the CPU's actor, whose own entries have a callout in service that waits for its lock.
    pub fn begin<R: Wait>(
        &self,
        rt: &R,
        passes: &mut Passes,
        cpu: u32,
        act: u64,
        hold: &Hold<'_>,
    ) -> Made
        requires cpu { cpu < self.now.cpus }
        requires passes { AreOf N.name self.now passes.old }
        requires serves { (d : Due) × IsServing false passes.old cpu d (Waits d.n) }
        requires held { (d : Due) → IsServing false passes.old cpu d (Waits d.n) → hold_of (spec_at self.now d.i).lock ≡ Some hold.now }
        ensures begun { (d : Due) → IsServing false passes.old cpu d (Waits d.n) → IsBegun passes.old cpu act d result passes.new }
        ensures kept { KeepsBegun N.name self.now cpu passes.old passes.new }
    {
        let _ = hold;
        for _ in rt.forever() {
            let locked = &self.desks[cpu as usize];
            let out = locked.desk.lock(rt).begin(&self.places, passes, cpu, act);
            if let Some(out) = out {
                return out;
            }
        }
        unreachable!()
    }

    /// Waits until no desk has callout `i`'s arming `n` in service. What a desk answers is decided by its books: whether its
    /// journal's last word is that the CPU or its interrupt serves this arming. That the wait ends, and when, no clause says.
    pub fn drain_wait<R: Wait>(&self, rt: &R, i: u32, n: u64) {
        for locked in &self.desks {
            let _desk = locked
                .changed
                .wait_while(rt, locked.desk.lock(rt), |desk: &mut Desk<N>| -> bool {
                    desk.services(i, n)
                });
        }
    }

    /// Takes the lock of this CPU's desk, which the drop of the answer releases.
    pub fn hold_desk<R: Wait>(&self, rt: &R, cpu: u32) -> DeskHold<'_, N>
        requires { cpu < self.now.cpus }
        ensures { result ≡ cpu }
    {
        for _ in rt.forever() {
            let desk = self.desks[cpu as usize].desk.lock(rt);
            if desk.cpu() == cpu {
                return DeskHold { desk };
            }
        }
        unreachable!()
    }

    /// Ends the service, with all actors' passes of it. It takes no memory, and waits where a history or an actor's passes
    /// aren't found.
    ///
    /// Each actor's passes are among those handed in, once. What each actor had seen of a history begins it, and it has no
    /// more entries of the actor.
    pub fn close<R: Wait>(self, rt: &R, passes: Seq<Passes>) -> Closing
        requires { AreAll N.name self passes }
        ensures each { HasEach self passes }
        ensures name { result.name ≡ N.name }
        ensures timers { AreEnded self passes result.timers }
        ensures cpus { AreEndedCpus self passes result.cpus }
    {
        let Service {
            places,
            params: _,
            desks,
            hints: _,
            ending,
        } = self;
        let Ending {
            books,
            timers,
            cpus,
        } = ending.into_inner();
        let books = open_desks(desks, books);
        let passes = passes.into_vec();
        check_each(rt, &passes);
        end_all(rt, places, books, passes, timers, cpus)
    }
}
