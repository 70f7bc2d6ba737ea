//! What the CPU does.
ghost use Rattle.std.specs.Prelude.{◌≡◌};
ghost use Rattle.co_embed.specs.Refusals.{status_of};
ghost use Rattle.co_embed.specs.Serving.{AdvanceAnswers, BeginAnswers, EndAnswers, NextAnswers};
ghost use Rattle.callout_c.specs.Exports.{EarliestAnswers, OnWheel, done_or, put_or};

use crate::CalloutWheel;
use crate::calls::NO_WHEEL;
use crate::life::put_or_u64;
use co_embed::{CalloutParcel, CalloutReply, Refusal, status};
use std::alloc::Global;

/// A number goes to its place, and the status is 0, or why not.
fn put_or_u32(answer: Result<u32, Refusal>, place: &mut u32) -> i32
    ensures status { result ≡ done_or answer }
    ensures number { place.new ≡ put_or answer place.old }
{
    match answer {
        Ok(number) => {
            *place = number;
            0
        }
        Err(refusal) => refusal.errno(),
    }
}

/// What is due by `now` comes due; `due` is how many armings that are. `now` is in units of 2^-32 s. 0, or a negative
/// errno: `EBADF`, `EINVAL` where `now` is 2^63 or more.
#[unsafe(no_mangle)]
pub extern "C" fn callout_advance(
    alloc: Global,
    w: &mut CalloutWheel,
    now: u64,
    due: &mut u32,
) -> i32
    ensures { OnWheel done_or result w.old.held.value w.new.held.value (due.new ≡ due.old)
        (λ r before after. AdvanceAnswers r before after now × (due.new ≡ put_or r due.old)) }
{
    let Some(mut inner) = w.open(alloc) else {
        return NO_WHEEL;
    };
    let answer = inner.embed.advance(now);
    w.close(inner);
    put_or_u32(answer, due)
}

/// The first callout that has come due goes into service, of the CPU or of its interrupt where `direct`: the reply is
/// go, or hold where it waits for its lock. 0, or a negative errno: `EBADF`, `EBUSY` where that has one in service,
/// `EAGAIN` where nothing has come due.
#[unsafe(no_mangle)]
pub extern "C" fn callout_next(
    alloc: Global,
    w: &mut CalloutWheel,
    direct: bool,
    reply: &mut CalloutReply,
) -> i32
    ensures { OnWheel status_of result w.old.held.value w.new.held.value (reply.new ≡ reply.old)
        (λ r before after. NextAnswers r direct before after reply.old reply.new) }
{
    let Some(mut inner) = w.open(alloc) else {
        return NO_WHEEL;
    };
    let answer = inner.embed.next(direct, reply);
    w.close(inner);
    status(answer)
}

/// The lock of the callout in service is held: the reply is go, or skip where a call cancelled it. 0, or a negative
/// errno: `EBADF`, `EPERM` where none waits for its lock.
#[unsafe(no_mangle)]
pub extern "C" fn callout_begin(
    alloc: Global,
    w: &mut CalloutWheel,
    reply: &mut CalloutReply,
) -> i32
    ensures { OnWheel status_of result w.old.held.value w.new.held.value (reply.new ≡ reply.old)
        (λ r before after. BeginAnswers r before after reply.old reply.new) }
{
    let Some(mut inner) = w.open(alloc) else {
        return NO_WHEEL;
    };
    let answer = inner.embed.begin(reply);
    w.close(inner);
    status(answer)
}

/// The service is over, of the CPU or of its interrupt where `direct`; where the reply says that the callout leaves,
/// the parcel is written. 0, or a negative errno: `EBADF`, `EPERM` where no call is under way that can end.
#[unsafe(no_mangle)]
pub extern "C" fn callout_end(
    alloc: Global,
    w: &mut CalloutWheel,
    direct: bool,
    reply: &mut CalloutReply,
    parcel: &mut CalloutParcel,
) -> i32
    ensures { OnWheel status_of result w.old.held.value w.new.held.value
        ((reply.new ≡ reply.old) × (parcel.new ≡ parcel.old))
        (λ r before after. EndAnswers r direct before after reply.old reply.new parcel.old parcel.new) }
{
    let Some(mut inner) = w.open(alloc) else {
        return NO_WHEEL;
    };
    let answer = inner.embed.end(direct, reply, parcel);
    w.close(inner);
    status(answer)
}

/// The first time at which there is something to service, in units of 2^-32 s: that of the last advance where
/// something has come due already. 0, or a negative errno: `EBADF`, `EAGAIN` where nothing is armed here.
#[unsafe(no_mangle)]
pub extern "C" fn callout_earliest(alloc: Global, w: &mut CalloutWheel, at: &mut u64) -> i32
    ensures { OnWheel done_or result w.old.held.value w.new.held.value (at.new ≡ at.old)
        (λ r before after. EarliestAnswers r before after × (at.new ≡ put_or r at.old)) }
{
    let Some(inner) = w.open(alloc) else {
        return NO_WHEEL;
    };
    let answer = match inner.embed.earliest() {
        None => Err(Refusal::Nothing),
        Some(time) => Ok(time),
    };
    w.close(inner);
    put_or_u64(answer, at)
}
