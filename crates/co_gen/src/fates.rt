//! What an entry of a callout's history adds to the counts, as its reply tells.
ghost use Rattle.std.specs.Prelude.{◌≡◌, ◌+◌, OnOk, IfOk, if◌then◌else◌};
ghost use Rattle.co_object.specs.Entries.{is_armed, is_stop};
ghost use Rattle.co_object.specs.Fate.{fate_by, is_arming};
ghost use Rattle.co_object.specs.declared.Op.TheVariants.{Call as ByCaller};
ghost use Rattle.co_gen.specs.declared.fates.ToFire.TheVariants.{Nothing};
ghost use Rattle.co_gen.specs.Fates.{after_entry, cancelled, disarmed, fate_counted, is_to_fire, to_fire_after};

use crate::counts::Counts;
use co_object::{CallOp, Entry, Op, PlainOp, Reply};
use co_sbt::NoMemory;

/// What of a callout is to fire yet. It is all that has to be kept of one, since at most one arming is to fire. Our own
/// decision.
#[derive(Clone, Copy)]
pub(crate) enum ToFire {
    /// No arming.
    Nothing,
    /// An arming that stands in a queue, or waits for the end of a service on another CPU.
    Armed,
    /// An arming that was picked and waits for the callout's lock.
    Picked,
}

/// One more than a count.
pub(crate) fn more(count: u64) -> Result<u64, NoMemory>
    ensures { IfOk result (λ more. more ≡ count + 1) }
{
    count.checked_add(1).ok_or(NoMemory {})
}

/// Whether an arming is to fire.
fn is_to_fire(what: ToFire) -> bool
    ensures { result ≡ is_to_fire what }
{
    match what {
        ToFire::Nothing => false,
        ToFire::Armed | ToFire::Picked => true,
    }
}

/// After an armed one is taken away; one that was picked waits for the lock as before.
fn disarmed(before: ToFire) -> ToFire
    ensures { result ≡ disarmed before }
{
    match before {
        ToFire::Nothing | ToFire::Armed => ToFire::Nothing,
        ToFire::Picked => ToFire::Picked,
    }
}

/// After one that was picked is cancelled; an armed one stays.
fn cancelled(before: ToFire) -> ToFire
    ensures { result ≡ cancelled before }
{
    match before {
        ToFire::Nothing | ToFire::Picked => ToFire::Nothing,
        ToFire::Armed => ToFire::Armed,
    }
}

/// After a stop, or an asynchronous drain that answers as a stop does.
#[inline(always)]
fn stopped(before: ToFire, op: &Op) -> ToFire
    ensures { result ≡ (if is_stop op.now then Nothing else disarmed before) }
{
    match op {
        Op::Call(CallOp::Plain(PlainOp::Stop)) => ToFire::Nothing,
        _ => disarmed(before),
    }
}

/// What is to fire after an operation with this reply.
#[inline(always)]
fn to_fire_after(before: ToFire, op: &Op, reply: &Reply) -> ToFire
    ensures { result ≡ to_fire_after before op.now reply.now }
{
    match reply {
        Reply::Armed { .. } => ToFire::Armed,
        Reply::NotArmed { .. } => cancelled(before),
        Reply::Hold => ToFire::Picked,
        Reply::Go { .. } => ToFire::Nothing,
        Reply::Stopped { .. } => stopped(before, op),
        Reply::Wait { .. } | Reply::Drained { .. } => disarmed(before),
        _ => before,
    }
}

fn is_armed(reply: &Reply) -> bool
    ensures { result ≡ is_armed reply.now }
{
    match reply {
        Reply::Armed { .. } => true,
        _ => false,
    }
}

#[inline(always)]
fn is_arming(op: &PlainOp) -> bool
    ensures { result ≡ is_arming op.now }
{
    match op {
        PlainOp::Reset { .. } | PlainOp::Schedule { .. } => true,
        _ => false,
    }
}

/// Counts an arming that ceases to be open by a caller's operation.
#[inline(always)]
fn count_call(counts: &mut Counts, op: &CallOp) -> Result<(), NoMemory>
    ensures { OnOk result (counts.new ≡ fate_counted counts.old (fate_by (ByCaller op.now))) }
{
    match op {
        CallOp::Plain(plain) => {
            if is_arming(plain) {
                counts.superseded = more(counts.superseded)?;
            } else {
                counts.stopped = more(counts.stopped)?;
            }
        }
        CallOp::DrainTry { .. } => counts.stopped = more(counts.stopped)?,
    }
    Ok(())
}

/// Counts an arming that ceases to be open by an operation.
#[inline(always)]
fn count_fate(counts: &mut Counts, op: &Op) -> Result<(), NoMemory>
    ensures { OnOk result (counts.new ≡ fate_counted counts.old (fate_by op.now)) }
{
    match op {
        Op::Call(call) => count_call(counts, call),
        Op::Run(_) => {
            counts.fired = more(counts.fired)?;
            Ok(())
        }
    }
}

/// Counts the arming that an entry accepts and the fate that it decides, and takes the callout along. NoMemory where a
/// count would be 2^64.
#[inline(always)]
pub(crate) fn count_entry(
    counts: &mut Counts,
    callout: &mut ToFire,
    entry: &Entry,
) -> Result<(), NoMemory>
    ensures callout { OnOk result (callout.new ≡ to_fire_after callout.old entry.now.op entry.now.reply) }
    ensures counts { OnOk result (counts.new ≡ after_entry counts.old callout.old entry.now) }
{
    let before = *callout;
    let after = to_fire_after(before, &entry.op, &entry.reply);
    let accepted = is_armed(&entry.reply);
    *callout = after;
    if accepted {
        counts.armed = more(counts.armed)?;
    }
    if is_to_fire(before) && (accepted || !is_to_fire(after)) {
        count_fate(counts, &entry.op)
    } else {
        Ok(())
    }
}
