//! Wheels, and callouts that come and go.
ghost use Rattle.std.specs.Prelude.{◌≡◌};
ghost use Rattle.co_embed.specs.Lives.{FiniAnswers, InitAnswers, LandAnswers};
ghost use Rattle.co_embed.specs.Refusals.{status_of};
ghost use Rattle.callout_c.specs.Exports.{FreeAnswers, NewAnswers, OnWheel, done_or, put_or};

use crate::calls::NO_WHEEL;
use crate::{CalloutWheel, Inner};
use co_embed::{CalloutAttr, CalloutParcel, Embed, Refusal, status};
use std::alloc::Global;

/// A handle gets a CPU's wheel with room for `callouts` ids, 1 to 2^20, of which the last `direct` are for direct
/// callouts, and with a power of two of buckets, 16 to 65536. No id has a callout yet.
///
/// 0, or a negative errno: `EEXIST` where the handle has a wheel, `EINVAL` where a size is out of its range or `cpu`
/// is one of the words for home and here, `ENOMEM`. Our own decisions.
#[unsafe(no_mangle)]
pub extern "C" fn callout_wheel_new(
    alloc: Global,
    w: &mut CalloutWheel,
    cpu: u32,
    buckets: u32,
    callouts: u32,
    direct: u32,
) -> i32
    ensures { NewAnswers result w.old.held.value w.new.held.value cpu buckets callouts direct }
{
    if w.live {
        return Refusal::Exists.errno();
    }
    let embed = match Embed::new(alloc, cpu, buckets, callouts, direct) {
        Ok(embed) => embed,
        Err(refusal) => return refusal.errno(),
    };
    let Ok(inner) = Box::new(alloc, Inner { embed }) else {
        return Refusal::NoMemory.errno();
    };
    w.close(inner);
    0
}

/// The memory of a handle's wheel is given back; what is armed is forgotten. 0, or a negative errno: `EBADF`, `EBUSY`
/// where a callout is in service.
#[unsafe(no_mangle)]
pub extern "C" fn callout_wheel_free(alloc: Global, w: &mut CalloutWheel) -> i32
    ensures { FreeAnswers result w.old.held.value w.new.held.value }
{
    let Some(inner) = w.open(alloc) else {
        return NO_WHEEL;
    };
    if inner.embed.is_serving(false) || inner.embed.is_serving(true) {
        w.close(inner);
        return Refusal::Busy.errno();
    }
    0
}

/// Id `id` gets a callout as `callout_init` makes one, not armed. 0, or a negative errno: `EBADF`, `EINVAL` where the
/// id or the attributes are out of their ranges, `EEXIST` where the id has a callout here.
#[unsafe(no_mangle)]
pub extern "C" fn callout_init(
    alloc: Global,
    w: &mut CalloutWheel,
    id: u32,
    attr: &CalloutAttr,
) -> i32
    ensures { OnWheel status_of result w.old.held.value w.new.held.value (Unit {0})
        (λ r before after. InitAnswers r before after id attr.now) }
{
    let Some(mut inner) = w.open(alloc) else {
        return NO_WHEEL;
    };
    let answer = inner.embed.init(id, attr);
    w.close(inner);
    status(answer)
}

/// Callout `id` goes, and its id is free. 0, or a negative errno: `EBADF`, `ENOENT` where it is not here, `EBUSY`
/// where it is armed or in service.
#[unsafe(no_mangle)]
pub extern "C" fn callout_fini(alloc: Global, w: &mut CalloutWheel, id: u32) -> i32
    ensures { OnWheel status_of result w.old.held.value w.new.held.value (Unit {0})
        (λ r before after. FiniAnswers r before after id) }
{
    let Some(mut inner) = w.open(alloc) else {
        return NO_WHEEL;
    };
    let answer = inner.embed.fini(id);
    w.close(inner);
    status(answer)
}

/// A number goes to its place, and the status is 0, or why not.
pub(crate) fn put_or_u64(answer: Result<u64, Refusal>, place: &mut u64) -> i32
    ensures status { result ≡ done_or answer }
    ensures number { place.new ≡ put_or answer place.old }
{
    match answer {
        Ok(number) => {
            *place = number;
            0
        }
        Err(refusal) => refusal.errno(),
    }
}

/// A callout that left another CPU for this one is here, and armed; `at` is the time at which it stands in the queue,
/// in units of 2^-32 s.
///
/// 0, or a negative errno: `EBADF`, `EINVAL` where the parcel is not for this CPU, no callout of it or not of its
/// lane, `EEXIST` where the id has a callout here.
#[unsafe(no_mangle)]
pub extern "C" fn callout_land(
    alloc: Global,
    w: &mut CalloutWheel,
    parcel: &CalloutParcel,
    at: &mut u64,
) -> i32
    ensures { OnWheel done_or result w.old.held.value w.new.held.value (at.new ≡ at.old)
        (λ r before after. LandAnswers r before after parcel.now × (at.new ≡ put_or r at.old)) }
{
    let Some(mut inner) = w.open(alloc) else {
        return NO_WHEEL;
    };
    let answer = inner.embed.land(parcel);
    w.close(inner);
    put_or_u64(answer, at)
}
