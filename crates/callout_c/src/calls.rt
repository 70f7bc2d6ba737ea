//! A caller's operations. Each answers 0, or why not, a negative errno.
ghost use Rattle.std.specs.Prelude.{◌≡◌};
ghost use Rattle.std.specs.declared.option.Option.TheVariants.{Some, None};
ghost use Rattle.co_object.specs.declared.op.CallOp.TheVariants.{DrainTry, Plain};
ghost use Rattle.co_object.specs.declared.op.PlainOp.TheVariants.{Stop, Active, Pending, Deactivate};
ghost use Rattle.co_embed.specs.Calls.{Answers, ArmAnswers, DrainAnswers, QueryAnswers};
ghost use Rattle.co_embed.specs.Refusals.{status_of};
ghost use Rattle.co_embed.specs.Times.{reset_op, schedule_op};
ghost use Rattle.callout_c.specs.Exports.{OnWheel, yes_or};

use crate::CalloutWheel;
use co_embed::{CalloutParcel, CalloutReply, Refusal, When, status};
use std::alloc::Global;

/// `EBADF`, which every call on a handle without callouts answers (our own decision).
pub(crate) const NO_WHEEL: i32 = -9;

/// `callout_reset_sbt_on`: from `due` on `func` is to be called with `arg`, at `cpu`. `due` and `prec` are in units of
/// 2^-32 s. The reply is armed, not armed or worn; where it says that the callout leaves, the parcel is written.
///
/// 0, or a negative errno: `EBADF`, `ENOENT` where callout `id` is not here, `EINVAL` where a time is 2^63 or more.
#[unsafe(no_mangle)]
pub extern "C" fn callout_reset(
    alloc: Global,
    w: &mut CalloutWheel,
    id: u32,
    due: u64,
    prec: u64,
    func: u64,
    arg: u64,
    cpu: u32,
    reply: &mut CalloutReply,
    parcel: &mut CalloutParcel,
) -> i32
    ensures { OnWheel status_of result w.old.held.value w.new.held.value
        ((reply.new ≡ reply.old) × (parcel.new ≡ parcel.old))
        (λ r before after. ArmAnswers r before after id (record { due = due; prec = prec; cpu = cpu })
        (reset_op before.cpu.callouts.cpu (record { due = due; prec = prec; cpu = cpu }) arg) (Some func)
        reply.old reply.new parcel.old parcel.new) }
{
    let Some(mut inner) = w.open(alloc) else {
        return NO_WHEEL;
    };
    let when = When { due, prec, cpu };
    let answer = inner.embed.reset(id, when, func, arg, reply, parcel);
    w.close(inner);
    status(answer)
}

/// `callout_schedule_sbt_on`: as `callout_reset`, with the function and argument of the last reset; the reply may be
/// that there was none.
#[unsafe(no_mangle)]
pub extern "C" fn callout_schedule(
    alloc: Global,
    w: &mut CalloutWheel,
    id: u32,
    due: u64,
    prec: u64,
    cpu: u32,
    reply: &mut CalloutReply,
    parcel: &mut CalloutParcel,
) -> i32
    ensures { OnWheel status_of result w.old.held.value w.new.held.value
        ((reply.new ≡ reply.old) × (parcel.new ≡ parcel.old))
        (λ r before after. ArmAnswers r before after id (record { due = due; prec = prec; cpu = cpu })
        (schedule_op before.cpu.callouts.cpu (record { due = due; prec = prec; cpu = cpu })) None
        reply.old reply.new parcel.old parcel.new) }
{
    let Some(mut inner) = w.open(alloc) else {
        return NO_WHEEL;
    };
    let when = When { due, prec, cpu };
    let answer = inner.embed.schedule(id, when, reply, parcel);
    w.close(inner);
    status(answer)
}

/// `callout_stop`: the callout is armed no more, and one that waits for its lock is cancelled. 0, or a negative errno:
/// `EBADF`, `ENOENT` where callout `id` is not here.
#[unsafe(no_mangle)]
pub extern "C" fn callout_stop(
    alloc: Global,
    w: &mut CalloutWheel,
    id: u32,
    reply: &mut CalloutReply,
) -> i32
    ensures { OnWheel status_of result w.old.held.value w.new.held.value (reply.new ≡ reply.old)
        (λ r before after. Answers r before after id (Plain Stop) reply.old reply.new) }
{
    let Some(mut inner) = w.open(alloc) else {
        return NO_WHEEL;
    };
    let answer = inner.embed.stop(id, reply);
    w.close(inner);
    status(answer)
}

/// One try of `callout_drain`: the callout is armed no more; the reply is drained where no service has it, else wait.
/// `took` is false at first, and then what the last reply said. The errors are those of `callout_stop`.
#[unsafe(no_mangle)]
pub extern "C" fn callout_drain_try(
    alloc: Global,
    w: &mut CalloutWheel,
    id: u32,
    took: bool,
    reply: &mut CalloutReply,
) -> i32
    ensures { OnWheel status_of result w.old.held.value w.new.held.value (reply.new ≡ reply.old)
        (λ r before after. Answers r before after id (DrainTry took) reply.old reply.new) }
{
    let Some(mut inner) = w.open(alloc) else {
        return NO_WHEEL;
    };
    let answer = inner.embed.drain_try(id, took, reply);
    w.close(inner);
    status(answer)
}

/// `callout_async_drain`: the callout is armed no more; where it is in service the end names `func`. The errors are
/// those of `callout_stop`.
#[unsafe(no_mangle)]
pub extern "C" fn callout_async_drain(
    alloc: Global,
    w: &mut CalloutWheel,
    id: u32,
    func: u64,
    reply: &mut CalloutReply,
) -> i32
    ensures { OnWheel status_of result w.old.held.value w.new.held.value (reply.new ≡ reply.old)
        (λ r before after. DrainAnswers r before after id func reply.old reply.new) }
{
    let Some(mut inner) = w.open(alloc) else {
        return NO_WHEEL;
    };
    let answer = inner.embed.async_drain(id, func, reply);
    w.close(inner);
    status(answer)
}

/// 1 for yes, 0 for no, or why not.
fn yes_or(answer: Result<bool, Refusal>) -> i32
    ensures { result ≡ yes_or answer }
{
    match answer {
        Ok(yes) => { if yes { 1 } else { 0 } }
        Err(refusal) => refusal.errno(),
    }
}

/// `callout_pending`: 1 where callout `id` is armed, 0 where it is not, or the errors of `callout_stop`.
#[unsafe(no_mangle)]
pub extern "C" fn callout_pending(alloc: Global, w: &mut CalloutWheel, id: u32) -> i32
    ensures { OnWheel yes_or result w.old.held.value w.new.held.value (Unit {0})
        (λ r before after. QueryAnswers r before after id (Plain Pending)) }
{
    let Some(mut inner) = w.open(alloc) else {
        return NO_WHEEL;
    };
    let answer = inner.embed.pending(id);
    w.close(inner);
    yes_or(answer)
}

/// `callout_active`: 1 where callout `id` was armed, and neither stopped, drained nor deactivated since; else 0, or
/// the errors of `callout_stop`.
#[unsafe(no_mangle)]
pub extern "C" fn callout_active(alloc: Global, w: &mut CalloutWheel, id: u32) -> i32
    ensures { OnWheel yes_or result w.old.held.value w.new.held.value (Unit {0})
        (λ r before after. QueryAnswers r before after id (Plain Active)) }
{
    let Some(mut inner) = w.open(alloc) else {
        return NO_WHEEL;
    };
    let answer = inner.embed.active(id);
    w.close(inner);
    yes_or(answer)
}

/// `callout_deactivate`: callout `id` is not active any more. 0, or the errors of `callout_stop`.
#[unsafe(no_mangle)]
pub extern "C" fn callout_deactivate(alloc: Global, w: &mut CalloutWheel, id: u32) -> i32
    ensures { OnWheel yes_or result w.old.held.value w.new.held.value (Unit {0})
        (λ r before after. QueryAnswers r before after id (Plain Deactivate)) }
{
    let Some(mut inner) = w.open(alloc) else {
        return NO_WHEEL;
    };
    let answer = inner.embed.deactivate(id);
    w.close(inner);
    yes_or(answer)
}
