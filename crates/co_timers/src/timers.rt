//! The open service with its client locks.
ghost use Rattle.std.specs.Prelude.{◌≡◌, ◌≢◌, ◌≤◌, [], ℕ, Bool, IfErr, IfNone, IfOk, IfSome, false, length, replicate, slice_get, true};
ghost use Rattle.std.specs.Option.{option_copied};
ghost use Rattle.std.specs.declared.option.Option.TheVariants.{Some, None};
ghost use Rattle.co_object.specs.Queue.{Due};
ghost use Rattle.co_service.specs.Booted.{AreBooted};
ghost use Rattle.co_service.specs.Closing.{AreEnded, AreEndedCpus, HasEach};
ghost use Rattle.co_service.specs.Fresh.{AreNamed};
ghost use Rattle.co_desk.specs.Params.{actor_count, spec_at};
ghost use Rattle.co_desk.specs.Services.{IsFree, IsServing};
ghost use Rattle.co_desk.specs.Serving.{ServiceStage as Progress};
ghost use Rattle.co_object.specs.declared.op.CallOp.TheVariants.{DrainTry};
ghost use Rattle.co_timers.specs.Acts.{IsCallMade};
ghost use Rattle.co_timers.specs.Drains.{IsDrainOf, SaysTry, is_try};
ghost use Rattle.co_timers.specs.Answers.{is_cpu, names_cpu, refusal, uncovered};
ghost use Rattle.co_timers.specs.Handles.{IsHandle};

use crate::posts::open_posts;
use crate::{Drained, Posts, Refused, TimersFresh};
use co_lock::{ClientLocks, Held, Hold, LockKind, covers};
use co_object::{CallOp, LockUse, PlainOp, Reply, Spec};
use co_sbt::{NoMemory, Seq};
use co_service::{Closing, Fresh, Name, Params, Passes, Service, Told};
use std::alloc::Global;
use std::marker::Model;
use std::sync::Wait;

/// The open service with its client locks, for all threads to share. Its name is that of `N`.
///
/// Contracts see its parameters and the kinds of its locks.
#[derive(Drop)]
pub struct Timers<N: Name> {
    pub(crate) service: Service<N>,
    pub(crate) locks: ClientLocks,
    pub(crate) params: Params,
    /// By number: the kinds of the client locks.
    pub(crate) kinds: Seq<LockKind>,
}

impl<N: Name> Model for Timers<N> {
    ghost use Rattle.co_timers.specs.Timers.{TimersView, AreTimers};

    ghost Value = { TimersView };

    ghost view = { λ t. record { params = t.params; locks = t.locks } };

    ghost invariant = { λ t. AreTimers t.service t.params t.locks t.kinds };
}

/// What is held.
pub(crate) fn held_of(hold: Option<&Hold<'_>>) -> Option<Held>
    ensures { result ≡ option_copied hold.entry }
{
    match hold {
        Some(hold) => Some(hold.held()),
        None => None,
    }
}

/// A CPU of this number exists, where one is named.
fn is_cpu(cpus: u32, cpu: Option<u32>) -> bool
    ensures { result ≡ is_cpu cpus cpu }
{
    match cpu {
        Some(cpu) => cpu < cpus,
        None => true,
    }
}

/// A CPU that the call names exists.
fn names_cpu(cpus: u32, op: &CallOp) -> bool
    ensures { result ≡ names_cpu cpus op.now }
{
    match op {
        CallOp::Plain(PlainOp::Reset { cpu, .. }) => is_cpu(cpus, *cpu),
        CallOp::Plain(PlainOp::Schedule { cpu, .. }) => is_cpu(cpus, *cpu),
        _ => true,
    }
}

/// How a hold is refused that doesn't cover the call.
fn uncovered(op: &CallOp) -> Refused
    ensures { result ≡ uncovered op.now }
{
    match op {
        CallOp::Plain(_) => Refused::NotHeld,
        CallOp::DrainTry { .. } => Refused::HoldsLock,
    }
}

/// What a try of a drain says: whether it has to wait for the end of arming `n`'s service.
enum Tried {
    Over(Drained),
    Waits { n: u64, takes: bool },
}

/// What the reply to a try says.
fn what_is(reply: &Reply) -> Tried
    requires { is_try reply.now ≡ true }
    ensures { SaysTry reply.now result }
{
    match *reply {
        Reply::Drained { code: 1, .. } => Tried::Over(Drained::Cancelled),
        Reply::Drained { .. } => Tried::Over(Drained::Nothing),
        Reply::Wait { n, took, .. } => Tried::Waits { n, takes: took },
        _ => unreachable!(),
    }
}

/// The open service of these parameters, and the posts of its actors. `NoMemory` where there is no room for them.
fn open_both<N: Name>(
    alloc: Global,
    params: &Params,
    fresh: Fresh,
    passes: Seq<Passes>,
) -> Result<(Service<N>, Posts<N>), NoMemory>
    requires name { fresh.name ≡ N.name }
    requires booted { AreBooted N.name params.now passes }
    requires named { AreNamed N.name params.now }
    ensures service { IfOk result (λ made. made.0 ≡ fresh.params) }
    ensures params { IfOk result (λ made. made.1.params ≡ params.now) }
    ensures here { IfOk result (λ made. made.1.here ≡ replicate (actor_count params.now) true) }
    ensures back { IfOk result (λ made. made.1.back ≡ []) }
{
    let posts = open_posts(alloc, params, passes)?;
    Ok((Service::open(alloc, fresh)?, posts))
}

impl<N: Name> Timers<N> {
    /// The spec of callout `i`; past the last one a spec without a lock.
    pub(crate) fn spec(&self, i: u32) -> Spec
        ensures { result ≡ spec_at self.now.params i }
    {
        match self.params.specs.as_slice().get(i as usize) {
            Some(spec) => *spec,
            None => Spec {
                lock: LockUse::Free,
                returns_unlocked: false,
                direct: false,
            },
        }
    }

    /// Why the call on callout `i` under this hold is refused.
    pub(crate) fn refusal(&self, hold: Option<Held>, i: u32, op: &CallOp) -> Option<Refused>
        ensures { result ≡ refusal self.now.params hold i op.now }
    {
        if i as usize >= self.params.specs.as_slice().len() {
            return Some(Refused::NoCallout);
        }
        if !names_cpu(self.params.cpus, op) {
            return Some(Refused::NoCpu);
        }
        if !covers(hold, &self.spec(i), op) {
            return Some(uncovered(op));
        }
        None
    }

    /// An actor's call on callout `i` under this hold, which nothing refuses. It still has in service what it had.
    pub(crate) fn make<R: Wait>(
        &self,
        rt: &R,
        passes: &mut Passes,
        act: u64,
        i: u32,
        op: &CallOp,
        hold: Option<&Hold<'_>>,
    ) -> Reply
        requires handle { IsHandle N.name self.now.params passes.old }
        requires cleared { refusal self.now.params (option_copied hold) i op.now ≡ None }
        ensures handle { IsHandle N.name self.now.params passes.new }
        ensures made { IsCallMade passes.old act i op.now result passes.new }
        ensures free { (direct : Bool) (cpu : ℕ) → IsFree direct passes.old cpu → IsFree direct passes.new cpu }
        ensures serving { (direct : Bool) (cpu : ℕ) (d : Due) (far : Progress) → IsServing direct passes.old cpu d far → IsServing direct passes.new cpu d far }
    {
        let mut told = Told::none();
        self.service
            .call_into(rt, passes, act, i, op, hold, &mut told);
        told.reply()
    }

    /// The tries of a drain, which nothing refuses, with a wait after each but the last.
    pub(crate) fn drain_on<R: Wait>(
        &self,
        rt: &R,
        passes: &mut Passes,
        act: u64,
        i: u32,
        hold: Option<&Hold<'_>>,
    ) -> Drained
        requires handle { IsHandle N.name self.now.params passes.old }
        requires cleared { refusal self.now.params (option_copied hold) i (DrainTry false) ≡ None }
        ensures handle { IsHandle N.name self.now.params passes.new }
        ensures drained { IsDrainOf passes.old act i result passes.new }
    {
        let mut took = false;
        for _ in rt.forever() {
            let reply = self.make(rt, passes, act, i, &CallOp::DrainTry { took }, hold);
            match what_is(&reply) {
                Tried::Over(said) => return said,
                Tried::Waits { n, takes } => {
                    self.service.drain_wait(rt, i, n);
                    took = takes;
                }
            }
        }
        unreachable!()
    }

    /// The open service, with the posts of its actors. It keeps the name, the parameters and the locks. `NoMemory`
    /// where the desks or the posts find no room; no later call takes any.
    pub fn open(alloc: Global, fresh: TimersFresh) -> Result<(Timers<N>, Posts<N>), NoMemory>
        requires { fresh.name ≡ N.name }
        ensures timers { IfOk result (λ made. made.0 ≡ record { params = fresh.params; locks = fresh.locks }) }
        ensures params { IfOk result (λ made. made.1.params ≡ fresh.params) }
        ensures here { IfOk result (λ made. made.1.here ≡ replicate (actor_count fresh.params) true) }
        ensures back { IfOk result (λ made. made.1.back ≡ []) }
    {
        let TimersFresh {
            fresh,
            passes,
            params,
            locks,
            kinds,
        } = fresh;
        let (service, posts) = open_both(alloc, &params, fresh, passes)?;
        let timers = Timers {
            service,
            locks,
            params,
            kinds,
        };
        Ok((timers, posts))
    }

    /// Ends the service, once all its actors are back. It takes no memory. Where someone is still away nothing has ended.
    ///
    /// What each actor had seen of a history begins it, and it has no more entries of the actor.
    pub fn close<R: Wait>(self, rt: &R, posts: Posts<N>) -> Result<Closing, (Timers<N>, Posts<N>)>
        requires { posts.params ≡ self.params }
        ensures away { IfErr result (λ both. (both.0 ≡ self) × (both.1 ≡ posts) × (length posts.back ≢ actor_count self.params)) }
        ensures each { IfOk result (λ _. HasEach self.params posts.back) }
        ensures name { IfOk result (λ closing. closing.name ≡ N.name) }
        ensures timers { IfOk result (λ closing. AreEnded self.params posts.back closing.timers) }
        ensures cpus { IfOk result (λ closing. AreEndedCpus self.params posts.back closing.cpus) }
    {
        if !posts.all_back() {
            return Err((self, posts));
        }
        let Timers { service, .. } = self;
        Ok(service.close(rt, posts.into_back()))
    }

    /// The service, for whoever serves its CPUs.
    pub fn service(&self) -> &Service<N>
        ensures { result.now ≡ self.now.params }
    {
        &self.service
    }

    /// Takes the client lock `id`, which excludes all others: a reader-writer lock in write mode. It waits while another
    /// holds it. `None` where there is no such lock.
    pub fn lock<R: Wait + Sync>(&self, rt: &R, id: u32) -> Option<Hold<'_>>
        ensures none { IfNone result (length self.now.locks ≤ id) }
        ensures some { IfSome result (λ hold. hold ≡ record { id = id; exclusive = true }) }
    {
        if id as usize >= self.kinds.as_slice().len() {
            return None;
        }
        Some(self.locks.lock(rt, id))
    }

    /// Takes the reader-writer lock `id` in read mode. It waits while another holds it in write mode. `None` where there is
    /// no such lock.
    pub fn read<R: Wait + Sync>(&self, rt: &R, id: u32) -> Option<Hold<'_>>
        ensures none { IfNone result (slice_get self.now.locks id ≢ Some LockKind.Rw) }
        ensures some { IfSome result (λ hold. hold ≡ record { id = id; exclusive = false }) }
    {
        match self.kinds.as_slice().get(id as usize) {
            Some(LockKind::Rw) => Some(self.locks.read(rt, id)),
            _ => None,
        }
    }
}
