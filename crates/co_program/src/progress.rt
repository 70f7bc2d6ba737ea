//! How an actor's place in its program goes on after a note.
ghost use Rattle.std.specs.Prelude.{◌≡◌, ℕ, ◌<◌, ◌-◌, ◌^◌, if◌then◌else◌};
ghost use Rattle.co_program.specs.declared.script.Script.{Script};
ghost use Rattle.co_program.specs.declared.role.Role.{Role};
ghost use Rattle.co_program.specs.Actors.{acts_at};
ghost use Rattle.co_program.specs.Action.{draining, firing, spec_at};
ghost use Rattle.co_program.specs.Advance.{act_over, advance, advance_callout, advance_queue, service_begun, call_made, drain_acts, due_of_call, service_ended, freed, pop_answered, parcel_of, service_picked, popped, tail_of};
ghost use Rattle.co_program.specs.Existing.{EntryExists, IsIn};
ghost use Rattle.co_program.specs.Indexed.{ActsAreCounted, function_acts_left, cursor_as, cursor_of, stage_of};
ghost use Rattle.co_program.specs.Stages.{Unlocking};
ghost use Rattle.co_program.specs.Scripts.{IsScript};

use crate::action::{draining, firing, spec_at};
use crate::cursor::{ActsLeft, Cursor, InService, PendingInsert, Stage};
use crate::going::{over, past};
use crate::script::Script;
use co_lock::Held;
use co_object::{AnyEntry, CallOp, Next, Op, Place, PlainOp, QOp, QReply, Reply};
use co_sbt::Sbt;

/// The actor has made this entry at this place, and its cursor goes on. `listed` is whether the callout stands in a queue after
/// the entry (no matter for the entries of CPUs and of actors). Of the acts that have begun, each is over in the program or
/// has made a note: so `act` is at most `task` and the number of the actor's notes, which bounds it for every caller. No
/// note changes what the actor holds.
#[inline(always)]
pub fn advance(script: &Script, cursor: &mut Cursor, listed: bool, place: Place, entry: &AnyEntry)
    requires script { IsScript script.now }
    requires room { cursor.old.act < 2 ^ 64 - 1 }
    ensures cursor { (actor : ℕ) → let s = script.now in
        cursor_of s actor cursor.new ≡ advance s (cursor_of s actor cursor.old) listed place entry.now }
    ensures counted { ActsAreCounted cursor.old cursor.new 1 }
    ensures hold { cursor.new.hold ≡ cursor.old.hold }
    ensures existing { (actor : ℕ) → let s = script.now in
        IsIn s (cursor_of s actor cursor.old) → EntryExists s place entry.now → IsIn s (cursor_of s actor cursor.new) }
{
    match (place, entry) {
        (Place::Timer(i), AnyEntry::Timer(e)) => {
            advance_callout(script, cursor, i, listed, &e.op, &e.reply)
        }
        (Place::Cpu(cpu), AnyEntry::Cpu(e)) => advance_queue(script, cursor, cpu, &e.op, &e.reply),
        _ => act_over(script, cursor),
    }
}

// ---- after a call, or in its place a note of the actor's own

/// The cursor goes on after an entry of callout `i`. Inlined, as is all to which it hands the operation or the reply: where no
/// function is passed a part of the note, and the listener keeps none, the note is never put together.
#[inline(always)]
fn advance_callout(
    script: &Script,
    cursor: &mut Cursor,
    i: u32,
    listed: bool,
    op: &Op,
    reply: &Reply,
)
    requires script { IsScript script.now }
    requires room { cursor.old.act < 2 ^ 64 - 1 }
    ensures cursor { (role : Role) → let s = script.now in let c = cursor_as s role cursor.old in
        cursor_as s role cursor.new ≡ advance_callout s (record c { removed = None }) i listed op.now reply.now c.stage }
    ensures counted { ActsAreCounted cursor.old cursor.new 1 }
{
    cursor.removed = None;
    match cursor.stage {
        Stage::Picking(v) => picked(script, cursor, &v, reply),
        Stage::Beginning(v) => begun(script, cursor, &v, reply),
        Stage::Ending(v) => ended(cursor, &v, reply),
        _ => called(script, cursor, i, listed, op, reply),
    }
}

/// After the entry of a call: an accepted arming that is listed is on its way into its CPU's queue.
#[inline(always)]
fn called(script: &Script, cursor: &mut Cursor, i: u32, listed: bool, op: &Op, reply: &Reply)
    requires script { IsScript script.now }
    requires room { cursor.old.act < 2 ^ 64 - 1 }
    ensures cursor { (role : Role) → let s = script.now in
        cursor_as s role cursor.new ≡ call_made (cursor_as s role cursor.old) i listed op.now reply.now }
    ensures counted { ActsAreCounted cursor.old cursor.new 1 }
{
    match *reply {
        Reply::Wait { n, took, .. } => cursor.stage = Stage::Waiting { n, took },
        Reply::Armed { n, cpu, .. } if listed => {
            let act = cursor.act;
            act_over(script, cursor);
            cursor.parcel = Some(PendingInsert {
                act,
                i,
                n,
                due: due_of_call(op),
                cpu,
            });
        }
        _ => act_over(script, cursor),
    }
}

/// The act is over: after a call, or in its place a note of the actor's own.
#[inline(always)]
fn act_over(script: &Script, cursor: &mut Cursor)
    requires script { IsScript script.now }
    requires room { cursor.old.act < 2 ^ 64 - 1 }
    ensures cursor { (role : Role) → let s = script.now in let c = cursor_as s role cursor.old in
        cursor_as s role cursor.new ≡ act_over c c.stage }
    ensures counted { ActsAreCounted cursor.old cursor.new 1 }
{
    match cursor.stage {
        Stage::Firing(v, left) => {
            cursor.act += 1;
            cursor.stage = firing(script, &v, cursor.hold, one_less(left));
        }
        Stage::Drained(v, left) => {
            cursor.act += 1;
            cursor.stage = draining(script, &v, one_less(left));
        }
        _ => over(cursor, cursor.hold),
    }
}

/// What is left of a function once its next act is over.
fn one_less(left: ActsLeft) -> ActsLeft
    ensures { (s : Script) → IsScript s → function_acts_left s result ≡ tail_of (function_acts_left s left) }
{
    ActsLeft {
        func: left.func,
        done: past(left.done),
    }
}

/// The time for which a call arms.
#[inline(always)]
fn due_of_call(op: &Op) -> Sbt
    ensures { result ≡ due_of_call op.now }
{
    match *op {
        Op::Call(CallOp::Plain(PlainOp::Reset { due, .. })) => due,
        Op::Call(CallOp::Plain(PlainOp::Schedule { due, .. })) => due,
        _ => Sbt::zero(),
    }
}

// ---- in a service

/// After a Pick: the function runs, or waits for the callout's lock.
#[inline(always)]
fn picked(script: &Script, cursor: &mut Cursor, v: &InService, reply: &Reply)
    ensures cursor { (role : Role) → let s = script.now in
        cursor_as s role cursor.new ≡ service_picked s (cursor_as s role cursor.old) v.now reply.now }
    ensures counted { ActsAreCounted cursor.old cursor.new 1 }
{
    cursor.stage = match *reply {
        Reply::Go { func, .. } => firing(script, v, cursor.hold, whole(func)),
        _ => Stage::Locking(*v),
    };
}

/// After a Begin: the function runs, or it was cancelled meanwhile and the lock is released.
#[inline(always)]
fn begun(script: &Script, cursor: &mut Cursor, v: &InService, reply: &Reply)
    ensures cursor { (role : Role) → let s = script.now in
        cursor_as s role cursor.new ≡ service_begun s (cursor_as s role cursor.old) v.now reply.now }
    ensures counted { ActsAreCounted cursor.old cursor.new 1 }
{
    cursor.stage = match *reply {
        Reply::Go { func, .. } => runs(script, v, cursor.hold, func),
        _ => Stage::Releasing(*v),
    };
}

/// The function begins, under the callout's lock or, where it returns unlocked, once that is released.
fn runs(script: &Script, v: &InService, hold: Option<Held>, func: u32) -> Stage
    ensures { let s = script.now in let acts = acts_at s.funcs func in
        stage_of s result ≡ (if (spec_at s v.now.i).returns_unlocked then Unlocking v.now acts else firing v.now hold acts) }
{
    if spec_at(script, v.i).returns_unlocked {
        Stage::Unlocking(*v, whole(func))
    } else {
        firing(script, v, hold, whole(func))
    }
}

/// All acts of a function.
fn whole(func: u32) -> ActsLeft
    ensures { (s : Script) → function_acts_left s result ≡ acts_at s.funcs func }
{
    ActsLeft { func, done: 0 }
}

/// After an End.
#[inline(always)]
fn ended(cursor: &mut Cursor, v: &InService, reply: &Reply)
    ensures cursor { (s : Script) (role : Role) →
        cursor_as s role cursor.new ≡ service_ended (cursor_as s role cursor.old) v.now reply.now }
    ensures counted { ActsAreCounted cursor.old cursor.new 1 }
{
    if let Reply::Ended { drain, next, .. } = *reply {
        cursor.stage = Stage::Freeing {
            service: *v,
            drain,
            next,
        };
    }
}

// ---- from a queue

/// The cursor goes on after an entry of a CPU's journal.
fn advance_queue(script: &Script, cursor: &mut Cursor, cpu: u32, op: &QOp, reply: &QReply)
    requires script { IsScript script.now }
    requires room { cursor.old.act < 2 ^ 64 - 1 }
    ensures cursor { (role : Role) → let s = script.now in
        cursor_as s role cursor.new ≡ advance_queue s (cursor_as s role cursor.old) cpu op.now reply.now }
    ensures counted { ActsAreCounted cursor.old cursor.new 1 }
{
    match op {
        QOp::Insert { .. } => cursor.parcel = None,
        QOp::Remove { .. } => cursor.removed = Some(cpu),
        QOp::Scan { .. } => {
            cursor.stage = Stage::Popping { act: cursor.act };
            cursor.act += 1;
        }
        QOp::Pop | QOp::PopDirect => popped(cursor, reply),
        QOp::Free | QOp::FreeDirect => freed(script, cursor),
    }
}

/// After a Pop, with the first of which a soft act begins.
fn popped(cursor: &mut Cursor, reply: &QReply)
    requires { cursor.old.act < 2 ^ 64 - 1 }
    ensures cursor { (s : Script) (role : Role) → IsScript s → let c = cursor_as s role cursor.old in
        cursor_as s role cursor.new ≡ popped c reply.now c.stage }
    ensures counted { ActsAreCounted cursor.old cursor.new 1 }
{
    match cursor.stage {
        Stage::Popping { act } => got(cursor, act, reply),
        _ => {
            let act = cursor.act;
            cursor.act += 1;
            got(cursor, act, reply)
        }
    }
}

/// What a Pop got; an empty queue ends the act.
fn got(cursor: &mut Cursor, act: u64, reply: &QReply)
    ensures cursor { (s : Script) (role : Role) → IsScript s →
        cursor_as s role cursor.new ≡ pop_answered (cursor_as s role cursor.old) act reply.now }
    ensures counted { ActsAreCounted cursor.old cursor.new 0 }
{
    match *reply {
        QReply::Got { i, n, at } => cursor.stage = Stage::Picking(InService { act, i, n, at }),
        _ => {
            cursor.task = past(cursor.task);
            cursor.stage = Stage::Ready;
        }
    }
}

/// After a Free: the callout may go to another CPU.
fn freed(script: &Script, cursor: &mut Cursor)
    ensures cursor { (role : Role) → let s = script.now in let c = cursor_as s role cursor.old in
        cursor_as s role cursor.new ≡ freed s c c.stage }
    ensures counted { ActsAreCounted cursor.old cursor.new 1 }
{
    if let Stage::Freeing {
        service,
        drain,
        next,
    } = cursor.stage
    {
        cursor.stage = drains(script, &service, drain);
        cursor.parcel = parcel_of(&service, next);
    }
}

/// The function of an asynchronous drain begins, if one was named.
fn drains(script: &Script, v: &InService, drain: Option<u32>) -> Stage
    ensures { stage_of script.now result ≡ draining v.now (drain_acts script.now drain) }
{
    match drain {
        None => Stage::Popping { act: v.act },
        Some(func) => draining(script, v, whole(func)),
    }
}

/// A callout that the end of its service sends on its way.
fn parcel_of(v: &InService, next: Option<Next>) -> Option<PendingInsert>
    ensures { result ≡ parcel_of v.now next }
{
    match next {
        None => None,
        Some(next) => Some(PendingInsert {
            act: v.act,
            i: v.i,
            n: next.n,
            due: next.due,
            cpu: next.cpu,
        }),
    }
}
