//! What an actor does next.
ghost use Rattle.std.specs.Prelude.{◌≡◌, ℕ, ◌<◌, ◌≤◌, ◌-◌, ◌+◌, ◌^◌, [], drop, if◌then◌else◌, is_some, slice_get};
ghost use Rattle.co_lock.specs.Service.{hold_of};
ghost use Rattle.co_program.specs.declared.script.Script.{Script};
ghost use Rattle.co_program.specs.declared.role.Role.{Role};
ghost use Rattle.co_program.specs.Actors.{actor_count, cpu_of, program_of};
ghost use Rattle.co_program.specs.Action.{Silent, Asks, action_for, action_in, action_with, asks_call, asks_drain, asks_within, begins_next, draining, drained_of, firing, free_of, locks, over, pop_of, scans_first, scans_of, spec_at, takes};
ghost use Rattle.co_program.specs.Advance.{tail_of};
ghost use Rattle.co_program.specs.Calls.{plain_op};
ghost use Rattle.co_program.specs.Existing.{ActionExists, IsIn};
ghost use Rattle.co_program.specs.Indexed.{ActionCounts, action_as, action_of, function_acts_left, cursor_as, cursor_of, stage_of};
ghost use Rattle.co_program.specs.Scripts.{IsScript};

use crate::act::{Act, Scene};
use crate::asks::{asks_callout, asks_itself, asks_queue, asks_run};
use crate::call::{call_of, names_here};
use crate::cursor::{ActsLeft, Cursor, InService, Stage};
use crate::program::{Task, acts_of, is_soft, next_of, task_after};
use crate::role::{Role, cpu_of, role_of};
use crate::script::Script;
use co_lock::{Held, covers, hold_of};
use co_object::{CallOp, LockUse, Op, OwnKind, QOp, RunOp, Spec};
use co_sbt::Sbt;

/// Whom an actor asks, and what.
#[derive(Clone, Copy, PartialEq, Eq)]
pub enum Asked {
    /// Callout `i`, by an operation in its history.
    Callout { i: u32, op: Op },
    /// The timer queue of a CPU, by an operation in its journal.
    Queue { cpu: u32, op: QOp },
    /// Nobody: a note of the actor's own.
    Itself(OwnKind),
}

/// What a step without a note does to the actor's place.
#[derive(Clone, Copy, PartialEq, Eq)]
pub enum SilentStep {
    /// The act is over. This is the client's now then, in units of 2^-32 s, and the lock that it holds.
    Over { time: Sbt, hold: Option<Held> },
    /// The act goes on to its next stage, with this hold.
    Within { hold: Option<Held> },
    /// The program is over, and the lock that is still held is released.
    Ends,
}

/// What an actor does next.
#[derive(Clone, Copy, PartialEq, Eq)]
pub enum Action {
    /// The program has ended.
    Nothing,
    /// A step without a note, which `go` makes.
    Silent(SilentStep),
    /// A step without a note that takes this lock. It waits while another actor holds the lock in a mode that excludes
    /// this one.
    Take { held: Held, to: SilentStep },
    /// A note of what is asked, in the act of this number.
    Asks { act: u64, asked: Asked },
}

// The action is put where the caller wants it, since each return of so large a value would be a copy. So the call that
// finds the role belongs into its caller, and the steps that it leads to stand once for all callers.

/// Puts into `next` what the actor does next (our own order). What was there doesn't matter.
#[inline(always)]
pub fn action_for(script: &Script, actor: u32, cursor: &Cursor, next: &mut Action)
    requires script { IsScript script.now }
    requires room { cursor.now.act < 2 ^ 64 - 1 }
    ensures action { let s = script.now in
        action_of s actor cursor.now next.new ≡ action_for s actor (cursor_of s actor cursor.now) }
    ensures counted { ActionCounts cursor.now next.new }
    ensures existing { let s = script.now in
        actor < actor_count s → IsIn s (cursor_of s actor cursor.now) → ActionExists s (action_of s actor cursor.now next.new) }
{
    action_with(script, role_of(script, actor), cursor, next);
}

/// The next step: a callout that is on its way comes first.
#[inline(never)]
fn action_with(script: &Script, role: Role, cursor: &Cursor, next: &mut Action)
    requires script { IsScript script.now }
    requires room { cursor.now.act < 2 ^ 64 - 1 }
    ensures action { let s = script.now in let c = cursor_as s role cursor.now in
        action_as s role cursor.now next.new ≡ action_with s role c c.parcel }
    ensures counted { ActionCounts cursor.now next.new }
{
    match cursor.parcel {
        Some(parcel) => {
            let op = QOp::Insert {
                i: parcel.i,
                n: parcel.n,
                t: parcel.due,
            };
            *next = asks_queue(parcel.act, parcel.cpu, op);
        }
        None => action_in(script, role, cursor, next),
    }
}

/// How many Scans the CPU's journal must have before the actor's next note: j + 1 for the j-th soft act, counted from 0,
/// and none for all else (our own rule).
pub fn scans_first(script: &Script, actor: u32, cursor: &Cursor) -> u32
    requires { IsScript script.now }
    ensures { result ≡ scans_first (cursor_of script.now actor cursor.now) }
{
    match (&cursor.parcel, &cursor.stage) {
        (None, Stage::Ready) => scans_of(script, role_of(script, actor), cursor.task),
        _ => 0,
    }
}

/// How many Scans must stand before the act that begins next, once `over` acts of the role are over: j + 1 for the
/// j-th soft act, and none for all else.
fn scans_of(script: &Script, role: Role, over: u32) -> u32
    requires { IsScript script.now }
    ensures { result ≡ scans_of (drop over (program_of script.now role)) }
{
    if !is_soft(script, role) {
        return 0;
    }
    match task_after(script, role, over) {
        Some(Task::Soft(j)) => j + 1,
        _ => 0,
    }
}

// ---- acts

/// The next step of the act under way.
fn action_in(script: &Script, role: Role, cursor: &Cursor, next: &mut Action)
    requires script { IsScript script.now }
    requires room { cursor.now.act < 2 ^ 64 - 1 }
    ensures action { let s = script.now in let c = cursor_as s role cursor.now in
        action_as s role cursor.now next.new ≡ action_in s role c c.stage }
    ensures counted { ActionCounts cursor.now next.new }
{
    // A client's CPU takes a division to find, so it is found only where it is asked for.
    match &cursor.stage {
        Stage::Ready => begins(script, role, cursor, next),
        Stage::Waiting { took, .. } => {
            *next = asks_drain(cursor, drained_of(script, role, cursor.task), *took);
        }
        Stage::Popping { act } => *next = asks_queue(*act, cpu_of(script, role), pop_of(role)),
        Stage::Picking(v) => {
            let pick = RunOp::Pick {
                n: v.n,
                cpu: cpu_of(script, role),
                at: v.at,
            };
            *next = asks_run(v, pick);
        }
        Stage::Locking(v) => *next = locks(script, cursor, v),
        Stage::Beginning(v) => {
            let cpu = cpu_of(script, role);
            *next = asks_run(v, RunOp::Begin { n: v.n, cpu });
        }
        Stage::Unlocking(_, _) => *next = Action::Silent(SilentStep::Within { hold: None }),
        Stage::Firing(v, left) => {
            asks_within(script, cpu_of(script, role), cursor, v, *left, next);
        }
        Stage::Releasing(_) => *next = Action::Silent(SilentStep::Within { hold: None }),
        Stage::Ending(v) => {
            let cpu = cpu_of(script, role);
            *next = asks_run(v, RunOp::End { n: v.n, cpu });
        }
        Stage::Freeing { service, .. } => {
            *next = asks_queue(service.act, cpu_of(script, role), free_of(role));
        }
        Stage::Drained(v, left) => {
            asks_within(script, cpu_of(script, role), cursor, v, *left, next);
        }
    }
}

/// How the next act begins; after the last one a lock that is still held is released.
fn begins(script: &Script, role: Role, cursor: &Cursor, next: &mut Action)
    requires script { IsScript script.now }
    requires room { cursor.now.act < 2 ^ 64 - 1 }
    ensures action { let s = script.now in let c = cursor_as s role cursor.now in
        action_as s role cursor.now next.new ≡ begins_next s role c c.left }
    ensures counted { ActionCounts cursor.now next.new }
{
    let acts = acts_of(script, role);
    let index = cursor.task as usize;
    if index >= acts.len() {
        *next = ends(cursor);
    } else if is_soft(script, role) {
        *next = asks_queue(cursor.act, cpu_of(script, role), pop_of(role));
    } else {
        does(script, role, cursor, &acts[index], next);
    }
}

/// How an act of the script begins.
fn does(script: &Script, role: Role, cursor: &Cursor, act: &Act, next: &mut Action)
    requires script { IsScript script.now }
    requires next { slice_get (drop cursor.now.task (program_of script.now role)) 0 ≡ Some (Task.Does act.now) }
    requires room { cursor.now.act < 2 ^ 64 - 1 }
    ensures action { let s = script.now in let c = cursor_as s role cursor.now in
        action_as s role cursor.now next.new ≡ begins_next s role c c.left }
    ensures counted { ActionCounts cursor.now next.new }
{
    match *act {
        Act::Now(time) => *next = tells(cursor, time),
        Act::Lock(id) => *next = takes(
            cursor,
            Held {
                id,
                exclusive: true,
            },
        ),
        Act::ReadLock(id) => *next = takes(
            cursor,
            Held {
                id,
                exclusive: false,
            },
        ),
        Act::Unlock => *next = unlocks(cursor),
        Act::Drain(i) => *next = asks_drain(cursor, i, false),
        Act::Tick(now) => {
            *next = asks_queue(cursor.act, cpu_of(script, role), QOp::Scan { now });
        }
        _ => {
            let scene = Scene {
                time: cursor.time,
                here: here_of(script, role, act),
                me: 0,
            };
            asks_call(script, cursor, act, &scene, next);
        }
    }
}

/// The CPU where the role makes the act, if that names it; to find a client's takes a division. What the act asks is the
/// same either way.
fn here_of(script: &Script, role: Role, act: &Act) -> u32
    requires { 1 ≤ script.now.cpus }
    ensures { (hz time me : ℕ) → plain_op act.now hz (record { time = time; here = result; me = me }) ≡
        plain_op act.now hz (record { time = time; here = cpu_of script.now role; me = me }) }
{
    if names_here(act) {
        cpu_of(script, role)
    } else {
        0
    }
}

/// The actor's time is told.
fn tells(cursor: &Cursor, time: Sbt) -> Action
    requires { cursor.now.act < 2 ^ 64 - 1 }
    ensures action { (s : Script) (role : Role) → IsScript s → let c = cursor_as s role cursor.now in
        action_as s role cursor.now result ≡ Silent (record (over c (tail_of c.left) c.hold) { now = time }) }
    ensures counted { cursor.now.task < 65536 → ActionCounts cursor.now result }
{
    Action::Silent(SilentStep::Over {
        time,
        hold: cursor.hold,
    })
}

/// A lock is taken.
fn takes(cursor: &Cursor, held: Held) -> Action
    requires { cursor.now.act < 2 ^ 64 - 1 }
    ensures action { (s : Script) (role : Role) → IsScript s → let c = cursor_as s role cursor.now in
        action_as s role cursor.now result ≡ takes c (tail_of c.left) held }
    ensures counted { cursor.now.task < 65536 → ActionCounts cursor.now result }
{
    if cursor.hold.is_some() {
        asks_itself(cursor.act, OwnKind::Holding)
    } else {
        Action::Take {
            held,
            to: SilentStep::Over {
                time: cursor.time,
                hold: Some(held),
            },
        }
    }
}

/// The lock is released.
fn unlocks(cursor: &Cursor) -> Action
    requires { cursor.now.act < 2 ^ 64 - 1 }
    ensures action { (s : Script) (role : Role) → IsScript s → let c = cursor_as s role cursor.now in
        action_as s role cursor.now result ≡
        (if is_some c.hold then Silent (over c (tail_of c.left) None) else Asks c.act (Asked.Itself OwnKind.NotHolding)) }
    ensures counted { cursor.now.task < 65536 → ActionCounts cursor.now result }
{
    if cursor.hold.is_some() {
        Action::Silent(SilentStep::Over {
            time: cursor.time,
            hold: None,
        })
    } else {
        asks_itself(cursor.act, OwnKind::NotHolding)
    }
}

/// A try of a drain, which no caller makes that holds a lock.
fn asks_drain(cursor: &Cursor, i: u32, took: bool) -> Action
    ensures action { (s : Script) (role : Role) →
        action_as s role cursor.now result ≡ asks_drain (cursor_as s role cursor.now) i took }
    ensures counted { ActionCounts cursor.now result }
{
    if cursor.hold.is_some() {
        asks_itself(cursor.act, OwnKind::HoldsLock)
    } else {
        asks_callout(cursor.act, i, Op::Call(CallOp::DrainTry { took }))
    }
}

/// The callout of the drain under way.
fn drained_of(script: &Script, role: Role, over: u32) -> u32
    ensures { result ≡ drained_of (drop over (program_of script.now role)) }
{
    match task_after(script, role, over) {
        Some(Task::Does(Act::Drain(i))) => i,
        _ => 0,
    }
}

/// After the last act a lock that is still held is released.
fn ends(cursor: &Cursor) -> Action
    ensures action { (s : Script) (role : Role) → let c = cursor_as s role cursor.now in
        c.left ≡ [] → action_as s role cursor.now result ≡ begins_next s role c [] }
    ensures counted { ActionCounts cursor.now result }
{
    if cursor.hold.is_some() {
        Action::Silent(SilentStep::Ends)
    } else {
        Action::Nothing
    }
}

// ---- calls

/// What a function's act asks, about its service.
fn asks_within(
    script: &Script,
    cpu: u32,
    cursor: &Cursor,
    v: &InService,
    left: ActsLeft,
    next: &mut Action,
)
    requires { IsScript script.now }
    ensures action { (role : Role) → let s = script.now in
        action_as s role cursor.now next.new ≡ asks_within s cpu (cursor_as s role cursor.now) v.now (function_acts_left s left) }
    ensures counted { ActionCounts cursor.now next.new }
{
    match next_of(script, left) {
        None => *next = Action::Nothing,
        Some(act) => {
            let scene = Scene {
                time: v.at,
                here: cpu,
                me: v.i,
            };
            asks_call(script, cursor, &act, &scene, next);
        }
    }
}

/// What an act asks that is a call. A call that the hold doesn't cover comes to no callout.
fn asks_call(script: &Script, cursor: &Cursor, act: &Act, scene: &Scene, next: &mut Action)
    requires { IsScript script.now }
    ensures action { (role : Role) → let s = script.now in
        action_as s role cursor.now next.new ≡ asks_call s (cursor_as s role cursor.now) act.now scene.now }
    ensures counted { ActionCounts cursor.now next.new }
{
    match call_of(act, script.hz, scene) {
        None => *next = Action::Nothing,
        Some((i, op)) => {
            let op = CallOp::Plain(op);
            if covers(cursor.hold, &spec_at(script, i), &op) {
                *next = asks_callout(cursor.act, i, Op::Call(op));
            } else {
                *next = asks_itself(cursor.act, OwnKind::NotHeld);
            }
        }
    }
}

/// What is fixed of a callout.
pub(crate) fn spec_at(script: &Script, i: u32) -> Spec
    ensures { result ≡ spec_at script.now i }
{
    match script.timers.as_slice().get(i as usize) {
        Some(spec) => *spec,
        None => Spec {
            lock: LockUse::Free,
            returns_unlocked: false,
            direct: false,
        },
    }
}

// ---- services

/// The callout's lock is taken.
fn locks(script: &Script, cursor: &Cursor, v: &InService) -> Action
    requires stage { cursor.now.stage ≡ Stage.Locking v.now }
    ensures action { (role : Role) → let s = script.now in
        action_as s role cursor.now result ≡ locks s (cursor_as s role cursor.now) v.now (hold_of (spec_at s v.now.i).lock) }
    ensures counted { ActionCounts cursor.now result }
{
    match hold_of(spec_at(script, v.i).lock) {
        None => Action::Nothing,
        Some(held) => Action::Take {
            held,
            to: SilentStep::Within { hold: Some(held) },
        },
    }
}

/// What a function's acts lead to: the release of the lock, if it is held still, and the end of the service.
pub(crate) fn firing(script: &Script, v: &InService, hold: Option<Held>, left: ActsLeft) -> Stage
    ensures { stage_of script.now result ≡ firing v.now hold (function_acts_left script.now left) }
{
    match (next_of(script, left), hold) {
        (Some(_), _) => Stage::Firing(*v, left),
        (None, None) => Stage::Ending(*v),
        (None, Some(_)) => Stage::Releasing(*v),
    }
}

/// What a drain function's acts lead to: the next callout.
pub(crate) fn draining(script: &Script, v: &InService, left: ActsLeft) -> Stage
    ensures { stage_of script.now result ≡ draining v.now (function_acts_left script.now left) }
{
    match next_of(script, left) {
        Some(_) => Stage::Drained(*v, left),
        None => Stage::Popping { act: v.act },
    }
}

/// The Pop of the role's lane: the urgent one is the interrupt's.
fn pop_of(role: Role) -> QOp
    ensures { result ≡ pop_of role }
{
    match role {
        Role::Client(_) | Role::Cpu(_) => QOp::Pop,
        Role::Interrupt(_) => QOp::PopDirect,
    }
}

/// The Free of the role's lane.
fn free_of(role: Role) -> QOp
    ensures { result ≡ free_of role }
{
    match role {
        Role::Client(_) | Role::Cpu(_) => QOp::Free,
        Role::Interrupt(_) => QOp::FreeDirect,
    }
}
