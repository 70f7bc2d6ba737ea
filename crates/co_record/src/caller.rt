//! A caller's operation on a callout, by its record and its CPU's slot.
ghost use Rattle.std.specs.Prelude.{◌≡◌, true, false};
ghost use Rattle.co_object.specs.Callout.{call, live_call, retired_call};
ghost use Rattle.co_record.specs.Paired.{IsPaired};
ghost use Rattle.co_record.specs.Same.{SameService};
ghost use Rattle.co_record.specs.Standing.{state_of};

use crate::arm::{reset, schedule};
use crate::drain::{async_drain, drain_try, stop};
use crate::lifetime::{init, retire};
use crate::{Record, Slot};
use co_object::{CallOp, PlainOp, Reply};

/// A caller's operation on a callout: the reply is the one that the callout alone gives.
///
/// The record stands at the slot's CPU, and no other slot has it in service. callout(9) of FreeBSD 12 gives the queries,
/// the rule that a call which is cancelled under its lock is not made, the codes of a stop, reset or schedule of a
/// callout that is not being serviced, and that of a stop of a running function that is not armed again. Every other
/// reply is our own decision.
#[inline(always)]
pub fn call(rec: &mut Record, slot: &mut Slot, op: &CallOp) -> Reply
    requires paired { IsPaired rec.old slot.old }
    ensures outcome { (state_of rec.new slot.new, result) ≡ call (state_of rec.old slot.old) op.now }
    ensures service { SameService rec.old slot.old rec.new slot.new }
{
    let mut reply = Reply::Done;
    call_into(rec, slot, op, &mut reply);
    reply
}

/// The same, with the reply where the caller wants it: each kind of reply is written there, and none is copied.
#[inline(always)]
pub fn call_into(rec: &mut Record, slot: &mut Slot, op: &CallOp, reply: &mut Reply)
    requires paired { IsPaired rec.old slot.old }
    ensures outcome { (state_of rec.new slot.new, reply.new) ≡ call (state_of rec.old slot.old) op.now }
    ensures service { SameService rec.old slot.old rec.new slot.new }
{
    match op {
        CallOp::Plain(op) => {
            if rec.live {
                live_call(rec, slot, op, reply);
            } else {
                retired_call(rec, slot, op, reply);
            }
        }
        CallOp::DrainTry { took } => drain_try(rec, slot, *took, reply),
    }
}

/// A caller's operation on a live callout.
#[inline(always)]
fn live_call(rec: &mut Record, slot: &mut Slot, op: &PlainOp, reply: &mut Reply)
    requires paired { IsPaired rec.old slot.old }
    requires live { rec.old.live ≡ true }
    ensures outcome { (state_of rec.new slot.new, reply.new) ≡ live_call (state_of rec.old slot.old) op.now }
    ensures service { SameService rec.old slot.old rec.new slot.new }
{
    match *op {
        PlainOp::Reset {
            due,
            prec,
            func,
            arg,
            cpu,
        } => reset(rec, slot, due, prec, func, arg, cpu, reply),
        PlainOp::Schedule { due, prec, cpu } => schedule(rec, slot, due, prec, cpu, reply),
        PlainOp::Stop => stop(rec, slot, reply),
        PlainOp::AsyncDrain { func } => async_drain(rec, slot, func, reply),
        PlainOp::Active => *reply = Reply::answer(rec.active),
        PlainOp::Pending => *reply = Reply::answer(rec.is_armed(slot)),
        PlainOp::Deactivate => {
            rec.active = false;
            *reply = Reply::Done;
        }
        PlainOp::Init => *reply = Reply::Live,
        PlainOp::Retire => retire(rec, slot, reply),
    }
}

/// A caller's operation on a retired callout.
fn retired_call(rec: &mut Record, slot: &mut Slot, op: &PlainOp, reply: &mut Reply)
    requires paired { IsPaired rec.old slot.old }
    requires retired { rec.old.live ≡ false }
    ensures outcome { (state_of rec.new slot.new, reply.new) ≡ retired_call (state_of rec.old slot.old) op.now }
    ensures service { SameService rec.old slot.old rec.new slot.new }
{
    match op {
        PlainOp::Init => init(rec, slot, reply),
        _ => *reply = Reply::Retired,
    }
}
