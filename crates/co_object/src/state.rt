//! What a callout alone is between two operations, and how it answers each.
ghost use Rattle.std.specs.Prelude.{◌≡◌};
ghost use Rattle.co_object.specs.Callout.{opening, call, live_call, retired_call, serve};
ghost use Rattle.co_object.specs.History.{outcome};

mod arm;
mod drain;
mod lifetime;
mod service;

use crate::{CallOp, PlainOp, Reply, RunOp, Spec};
use co_sbt::Sbt;

/// An accepted reset or schedule, whose function is to be called.
#[derive(Clone, Copy, Debug, PartialEq, Eq)]
pub struct Arming {
    /// Its number: the callout's accepted armings are counted from 0, up to 2^64 - 2.
    pub n: u64,
    /// The time from which on it may be picked, in units of 2^-32 s.
    pub due: Sbt,
    /// The precision that its caller gave, in units of 2^-32 s. It changes nothing here (our own decision).
    pub prec: Sbt,
    /// The function to call, by its number.
    pub func: u32,
    /// The function's argument, of which nothing is read here.
    pub arg: u64,
    /// The CPU that is to service it, by its number.
    pub cpu: u32,
}

/// What a CPU's service is doing with a callout.
#[derive(Clone, Copy, Debug, PartialEq, Eq)]
pub enum Run {
    /// No service has it.
    Idle,
    /// The arming was taken for service and waits for the callout's lock.
    Picked(Arming),
    /// Arming `n` was cancelled while it waited on `cpu`. The service has the callout until its end.
    Cancelled { n: u64, cpu: u32 },
    /// The function of arming `n` runs on `cpu`.
    Running { n: u64, cpu: u32 },
}

/// What a callout alone is between two operations. That a callout has all of this, and no more, is our own decision.
#[derive(Clone, Copy, Debug, PartialEq, Eq)]
pub struct State {
    /// It is in use, and not retired.
    pub live: bool,
    /// The arming that is pending, which `callout_pending` tells of. One that was picked for service is so no longer.
    pub armed: Option<Arming>,
    /// What a service is doing with it.
    pub run: Run,
    /// It was armed, and neither stopped, drained nor deactivated since: the flag of `callout_active`.
    pub active: bool,
    /// A drain waits for the end of the service.
    pub waiting: bool,
    /// The function of an asynchronous drain, which the end of the service will name.
    pub adrain: Option<u32>,
    /// The function and argument of the last arming: those of a schedule. None before the first since it was made
    /// live.
    pub last: Option<(u32, u64)>,
    /// The CPU of the last arming, or 0 before the first since it was made live: that of an arming that names none.
    pub home: u32,
    /// The number of accepted armings, which is the number of the next. At 2^64 - 1 the callout is worn.
    pub made: u64,
}

impl State {
    /// A callout as it is made.
    pub(crate) fn open(made: u64) -> State
        ensures { result ≡ opening made }
    {
        State {
            live: true,
            armed: None,
            run: Run::Idle,
            active: false,
            waiting: false,
            adrain: None,
            last: None,
            home: 0,
            made,
        }
    }

    /// Answers a caller's operation, which is possible in every state.
    pub(crate) fn call(&mut self, op: &CallOp) -> Reply
        ensures { (self.new, result) ≡ call self.old op.now }
    {
        match op {
            CallOp::Plain(op) => {
                if self.live {
                    self.live_call(op)
                } else {
                    self.retired_call(op)
                }
            }
            CallOp::DrainTry { took } => self.drain_try(*took),
        }
    }

    /// A caller's operation on a live callout.
    fn live_call(&mut self, op: &PlainOp) -> Reply
        ensures { (self.new, result) ≡ live_call self.old op.now }
    {
        match *op {
            PlainOp::Reset {
                due,
                prec,
                func,
                arg,
                cpu,
            } => self.reset(due, prec, func, arg, cpu),
            PlainOp::Schedule { due, prec, cpu } => self.schedule(due, prec, cpu),
            PlainOp::Stop => self.stop(),
            PlainOp::AsyncDrain { func } => self.async_drain(func),
            PlainOp::Active => Reply::answer(self.active),
            PlainOp::Pending => Reply::answer(self.armed.is_some()),
            PlainOp::Deactivate => {
                self.active = false;
                Reply::Done
            }
            PlainOp::Init => Reply::Live,
            PlainOp::Retire => self.retire(),
        }
    }

    /// A caller's operation on a retired callout.
    fn retired_call(&mut self, op: &PlainOp) -> Reply
        ensures { (self.new, result) ≡ retired_call self.old op.now }
    {
        match op {
            PlainOp::Init => self.init(),
            _ => Reply::Retired,
        }
    }

    /// An operation of the service. None where it is not possible.
    pub(crate) fn serve(&mut self, spec: &Spec, op: &RunOp) -> Option<Reply>
        ensures { (self.new, result) ≡ outcome (serve spec.now self.old op.now) self.old }
    {
        match *op {
            RunOp::Pick { n, cpu, at } => self.pick(spec, n, cpu, at),
            RunOp::Begin { n, cpu } => self.begin(n, cpu),
            RunOp::End { n, cpu } => self.end(n, cpu),
        }
    }
}
