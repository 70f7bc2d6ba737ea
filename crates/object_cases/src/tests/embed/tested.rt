//! A wheel under test, and the calls of a C program: a status, and what the pointers lead to.

use super::replies::{Told, UNTOUCHED, is_told};
use co_embed::{CalloutAttr, CalloutParcel, CalloutReply, Embed, Refusal, When, status};
use std::alloc::Global;
use std::process::Abort;

/// What `EPERM`, `ENOENT`, `EAGAIN`, `ENOMEM`, `EBUSY`, `EEXIST` and `EINVAL` are on Linux, negative.
pub(crate) const EPERM: i64 = -1;

pub(crate) const ENOENT: i64 = -2;

pub(crate) const EAGAIN: i64 = -11;

pub(crate) const ENOMEM: i64 = -12;

pub(crate) const EBUSY: i64 = -16;

pub(crate) const EEXIST: i64 = -17;

pub(crate) const EINVAL: i64 = -22;

/// No time at all.
pub(crate) const NEVER: i64 = -1;

/// What `CALLOUT_HOME` and `CALLOUT_HERE` are.
pub(crate) const HOME: u32 = 0xffff_ffff;

pub(crate) const HERE: u32 = 0xffff_fffe;

/// No lock, and a mutex that the program numbers 9.
pub(crate) const MPSAFE: CalloutAttr = CalloutAttr {
    lock_kind: 0,
    lock: 0,
    returns_unlocked: 0,
};

pub(crate) const MUTEX: CalloutAttr = CalloutAttr {
    lock_kind: 1,
    lock: 9,
    returns_unlocked: 0,
};

/// A parcel of nothing, which no call answers.
pub(crate) const NOTHING: CalloutParcel = CalloutParcel {
    due: 1,
    prec: 2,
    func: 3,
    arg: 4,
    made: 5,
    id: 6,
    cpu: 7,
    lock_kind: 8,
    lock: 9,
    returns_unlocked: 10,
    direct: 11,
    active: 12,
    known: 13,
};

/// A call, or a look at what the program has.
#[derive(Clone, Copy)]
pub(crate) enum Step {
    Init(u32, CalloutAttr),
    Fini(u32),
    /// Arms it here for a time, with function 70 and this argument.
    Reset(u32, u64, u64),
    /// Arms it with this function and argument.
    ResetTo(u32, When, u64, u64),
    /// At home.
    Schedule(u32, u64),
    ScheduleTo(u32, When),
    Stop(u32),
    DrainTry(u32, bool),
    AsyncDrain(u32, u64),
    Pending(u32),
    Active(u32),
    Deactivate(u32),
    /// How many came due.
    Advance(u64),
    Next,
    NextDirect,
    Begin,
    End,
    EndDirect,
    IsServing(bool),
    /// When the parcel's callout stands in the queue here.
    Land(CalloutParcel),
    Earliest,
    Cpu,
    /// Whether the parcel is this one.
    HasParcel(CalloutParcel),
}

/// A step, with what is answered, as a number, and what the reply tells then.
pub(crate) type Row = (Step, i64, Told);

/// A wheel, the reply and the parcel.
#[derive(Drop)]
pub(crate) struct TestedWheel {
    wheel: Embed,
    reply: CalloutReply,
    pub(crate) parcel: CalloutParcel,
}

impl TestedWheel {
    /// A wheel with nothing answered yet.
    pub(crate) fn new(wheel: Embed) -> TestedWheel {
        TestedWheel {
            wheel,
            reply: UNTOUCHED,
            parcel: NOTHING,
        }
    }

    /// What a step is answered, as a number.
    fn step(&mut self, step: Step) -> Option<i64> {
        let TestedWheel {
            wheel,
            reply,
            parcel,
        } = self;
        let answer = match step {
            Step::Init(id, attr) => wheel.init(id, &attr),
            Step::Fini(id) => wheel.fini(id),
            Step::Reset(id, due, arg) => wheel.reset(id, at(due, HERE), 70, arg, reply, parcel),
            Step::ResetTo(id, when, func, arg) => wheel.reset(id, when, func, arg, reply, parcel),
            Step::Schedule(id, due) => wheel.schedule(id, at(due, HOME), reply, parcel),
            Step::ScheduleTo(id, when) => wheel.schedule(id, when, reply, parcel),
            Step::Stop(id) => wheel.stop(id, reply),
            Step::DrainTry(id, took) => wheel.drain_try(id, took, reply),
            Step::AsyncDrain(id, func) => wheel.async_drain(id, func, reply),
            Step::Next => wheel.next(false, reply),
            Step::NextDirect => wheel.next(true, reply),
            Step::Begin => wheel.begin(reply),
            Step::End => wheel.end(false, reply, parcel),
            Step::EndDirect => wheel.end(true, reply, parcel),
            _ => return self.ask(step),
        };
        Some(i64::from(status(answer)))
    }

    /// The same of a call that answers more than a status, or of a look.
    fn ask(&mut self, step: Step) -> Option<i64> {
        match step {
            Step::Pending(id) => Some(flag(self.wheel.pending(id))),
            Step::Active(id) => Some(flag(self.wheel.active(id))),
            Step::Deactivate(id) => Some(flag(self.wheel.deactivate(id))),
            Step::Advance(now) => Some(count(self.wheel.advance(now))),
            Step::Land(parcel) => Some(time(self.wheel.land(&parcel))),
            _ => self.look(step),
        }
    }

    /// The same of a look, which changes nothing. None where the step is another.
    fn look(&self, step: Step) -> Option<i64> {
        match step {
            Step::IsServing(direct) => Some(i64::from(self.wheel.is_serving(direct))),
            Step::Earliest => match self.wheel.earliest() {
                Some(at) => Some(time(Ok(at))),
                None => Some(NEVER),
            },
            Step::Cpu => Some(i64::from(self.wheel.cpu())),
            Step::HasParcel(parcel) => Some(i64::from(self.parcel == parcel)),
            _ => None,
        }
    }

    /// The first row that is not as it has to be, if any is.
    pub(crate) fn first_wrong(&mut self, rows: &[Row]) -> Option<usize> {
        for (number, (step, answer, told)) in rows.iter().enumerate() {
            if self.step(*step) != Some(*answer) || !is_told(*told, &self.reply) {
                return Some(number);
            }
        }
        None
    }
}

/// A time at a CPU.
pub(crate) fn at(due: u64, cpu: u32) -> When {
    When { due, prec: 0, cpu }
}

/// 1 or 0, or why not.
fn flag(answer: Result<bool, Refusal>) -> i64 {
    match answer {
        Ok(yes) => i64::from(yes),
        Err(refusal) => i64::from(refusal.errno()),
    }
}

/// A count, or why not.
fn count(answer: Result<u32, Refusal>) -> i64 {
    match answer {
        Ok(due) => i64::from(due),
        Err(refusal) => i64::from(refusal.errno()),
    }
}

/// A time, or why not.
fn time(answer: Result<u64, Refusal>) -> i64 {
    match answer {
        Ok(at) => i64::try_from(at).unwrap_or(i64::MAX),
        Err(refusal) => i64::from(refusal.errno()),
    }
}

/// The wheel of a CPU, with 16 buckets, for callouts 0 to 3, of which 3 is direct. There is memory for it.
pub(crate) fn wheel_of(rt: &impl Abort, alloc: Global, cpu: u32) -> TestedWheel {
    TestedWheel::new(Embed::new(alloc, cpu, 16, 4, 1).expect(rt, "no memory"))
}

/// Each list of rows is as it has to be on a wheel of its own, at this CPU.
pub(crate) fn play(rt: &impl Abort, alloc: Global, name: &str, cpu: u32, lists: &[&[Row]]) {
    for (list, rows) in lists.iter().enumerate() {
        let mut tested = wheel_of(rt, alloc, cpu);
        let wrong = tested.first_wrong(rows);
        drop(tested);
        if let Some(row) = wrong {
            panic!(rt; "{name}: list {list}, row {row}");
        }
    }
}
