//! A reply as plain numbers.
ghost use Rattle.std.specs.Prelude.{◌≡◌};
ghost use Rattle.co_embed.specs.Told.{blank, told, told_call, told_end, told_next, told_service};

use co_object::Reply;
use co_sbt::Sbt;
use co_wheel::{CallOut, EndOut};

/// A reply as plain numbers.
///
/// `answer` is 1 armed, 2 not armed, 3 no handler, 4 worn, 5 stopped, 6 wait, 7 drained, 8 busy, 9 yes, 10 no, 11 done,
/// 12 go, 13 hold, 14 skip, 15 ended, 16 live, 17 retired, 18 in use. The flags are 0 or 1. What an answer does not tell is 0.
#[repr(C)]
#[derive(Clone, Copy, Debug, PartialEq, Eq)]
pub struct CalloutReply {
    pub answer: u32,
    /// What the function of callout(9) returns.
    pub code: i32,
    /// The number of an arming: the one that was made, is waited for, is taken into service, or moves on.
    pub n: u64,
    /// The function to call: of a go, or of the asynchronous drain that the end of a service names.
    pub func: u64,
    /// Its argument.
    pub arg: u64,
    /// The time at which a new arming stands in this CPU's queue, or at which a callout is serviced, or at which the arming
    /// that moves on is due.
    pub at: u64,
    /// The callout.
    pub id: u32,
    /// The CPU of an arming that was made or moves on.
    pub cpu: u32,
    /// The call took an arming out of the queue.
    pub removed: u8,
    /// A drain has taken an arming away.
    pub took: u8,
    /// A drain waits for this end.
    pub woke: u8,
    /// The callout leaves for `cpu`, in the parcel.
    pub leaves: u8,
}

/// No answer yet, but of this callout.
#[inline(always)]
pub(crate) fn blank(id: u32) -> CalloutReply
    ensures { result ≡ blank id }
{
    CalloutReply {
        answer: 0,
        code: 0,
        n: 0,
        func: 0,
        arg: 0,
        at: 0,
        id,
        cpu: 0,
        removed: 0,
        took: 0,
        woke: 0,
        leaves: 0,
    }
}

/// A reply of the callout, whose function and drain function have these words.
#[inline(always)]
pub(crate) fn told(id: u32, func: u64, drain: u64, reply: &Reply) -> CalloutReply
    ensures { result ≡ told id func drain reply.now }
{
    let mut out = blank(id);
    match *reply {
        Reply::Armed { code, n, cpu, .. } => {
            out.answer = 1;
            out.code = code;
            out.n = n;
            out.cpu = cpu;
        }
        Reply::NotArmed { code } => {
            out.answer = 2;
            out.code = code;
        }
        Reply::NoHandler => out.answer = 3,
        Reply::Worn => out.answer = 4,
        Reply::Stopped { code, .. } => {
            out.answer = 5;
            out.code = code;
        }
        Reply::Wait { n, took, .. } => {
            out.answer = 6;
            out.n = n;
            out.took = u8::from(took);
        }
        Reply::Drained { code, .. } => {
            out.answer = 7;
            out.code = code;
        }
        Reply::Busy => out.answer = 8,
        Reply::Yes => out.answer = 9,
        Reply::No => out.answer = 10,
        Reply::Done => out.answer = 11,
        Reply::Go { arg, .. } => {
            out.answer = 12;
            out.func = func;
            out.arg = arg;
        }
        Reply::Hold => out.answer = 13,
        Reply::Skip => out.answer = 14,
        Reply::Ended {
            drain: named,
            next,
            woke,
        } => {
            out.answer = 15;
            out.woke = u8::from(woke);
            if named.is_some() {
                out.func = drain;
            }
            if let Some(next) = next {
                out.n = next.n;
                out.cpu = next.cpu;
                out.at = next.due.raw();
            }
        }
        Reply::Live => out.answer = 16,
        Reply::Retired => out.answer = 17,
        Reply::InUse { .. } => out.answer = 18,
    }
    out
}

/// What a call on a callout answers.
#[inline(always)]
pub(crate) fn told_call(id: u32, out: &CallOut) -> CalloutReply
    ensures { result ≡ told_call id out.now }
{
    let mut reply = told(id, 0, 0, &out.reply);
    reply.removed = u8::from(out.removed);
    reply.leaves = u8::from(out.leaves.is_some());
    reply.at = match out.inserted {
        None => 0,
        Some(at) => at.raw(),
    };
    reply
}

/// What a service's step answers.
#[inline(always)]
pub(crate) fn told_service(id: u32, func: u64, reply: &Reply) -> CalloutReply
    ensures { result ≡ told_service id func reply.now }
{
    told(id, func, 0, reply)
}

/// What the start of a service answers: arming `n` is taken into it at this time.
#[inline(always)]
pub(crate) fn told_next(id: u32, func: u64, n: u64, at: Sbt, reply: &Reply) -> CalloutReply
    ensures { result ≡ told_next id func n at reply.now }
{
    let mut out = told(id, func, 0, reply);
    out.n = n;
    out.at = at.raw();
    out
}

/// What the end of a service answers.
#[inline(always)]
pub(crate) fn told_end(id: u32, drain: u64, out: &EndOut) -> CalloutReply
    ensures { result ≡ told_end id drain out.now }
{
    let mut reply = told(id, 0, drain, &out.reply);
    reply.leaves = u8::from(out.leaves.is_some());
    reply
}
