//! What is known of each callout while its notes come.
ghost use Rattle.std.specs.Prelude.{◌≡◌, replicate, slice_set, IfOk, if◌then◌else◌};
ghost use Rattle.co_view.specs.Scenes.{stays_armed, armed_by_call, is_wait, quiet, scene_behind, serviced_by, since_by, waits_by, waits_by_call, watch_of, watched};

use co_object::{AnyEntry, CallOp, Entry, Op, Place, PlainOp, Reply, RunOp};
use co_report::Line;
use co_sbt::{NoMemory, Seq};
use std::alloc::Global;

/// What is known of a callout.
#[derive(Clone, Copy)]
pub(crate) struct Watch {
    /// An arming is in a queue, or waits for the end of a service on another CPU.
    pub(crate) armed: bool,
    /// An arming was taken and waits for the callout's lock.
    pub(crate) waits: bool,
    /// A service has it.
    pub(crate) serviced: bool,
    /// The step at which that began.
    pub(crate) since: usize,
    /// The actor whose drain waited last.
    pub(crate) waiter: u32,
    /// The step at which it began to wait.
    pub(crate) waited: usize,
}

/// Nothing has come.
fn quiet() -> Watch
    ensures { result ≡ quiet }
{
    Watch {
        armed: false,
        waits: false,
        serviced: false,
        since: 0,
        waiter: 0,
        waited: 0,
    }
}

/// Whether a callout is armed behind a call.
fn armed_by_call(was: bool, reply: &Reply) -> bool
    ensures { result ≡ armed_by_call was reply.now }
{
    match reply {
        Reply::Armed { .. } => true,
        Reply::Stopped { .. } | Reply::Wait { .. } | Reply::Drained { .. } => false,
        _ => was,
    }
}

pub(crate) fn armed_by(was: bool, op: &Op, reply: &Reply) -> bool
    ensures { result ≡ stays_armed was op.now reply.now }
{
    match op {
        Op::Call(_) => armed_by_call(was, reply),
        Op::Run(RunOp::Pick { .. }) => false,
        Op::Run(_) => was,
    }
}

/// Whether an arming waits for its lock behind a call.
fn waits_by_call(was: bool, op: &CallOp, reply: &Reply) -> bool
    ensures { result ≡ waits_by_call was op.now reply.now }
{
    match reply {
        Reply::Armed { .. } | Reply::NotArmed { .. } => false,
        Reply::Stopped { .. } => match op {
            CallOp::Plain(PlainOp::Stop) => false,
            _ => was,
        },
        _ => was,
    }
}

fn waits_by(was: bool, op: &Op, reply: &Reply) -> bool
    ensures { result ≡ waits_by was op.now reply.now }
{
    match op {
        Op::Call(op) => waits_by_call(was, op, reply),
        Op::Run(RunOp::Pick { .. }) => matches!(reply, Reply::Hold),
        Op::Run(_) => false,
    }
}

fn serviced_by(was: bool, op: &Op) -> bool
    ensures { result ≡ serviced_by was op.now }
{
    match op {
        Op::Run(RunOp::Pick { .. }) => true,
        Op::Run(RunOp::End { .. }) => false,
        _ => was,
    }
}

fn since_by(was: usize, step: usize, op: &Op) -> usize
    ensures { result ≡ since_by was step op.now }
{
    match op {
        Op::Run(RunOp::Pick { .. }) => step,
        _ => was,
    }
}

/// What is so from a drain's wait on, where one begins now, and else what was.
fn at_wait<T: Copy>(was: T, now: T, reply: &Reply) -> T
    ensures { result ≡ (if is_wait reply.now then now else was) }
{
    match reply {
        Reply::Wait { .. } => now,
        _ => was,
    }
}

/// A callout behind an entry.
pub(crate) fn watched(step: usize, watch: Watch, entry: &Entry) -> Watch
    ensures { result ≡ watched step watch entry.now }
{
    Watch {
        armed: armed_by(watch.armed, &entry.op, &entry.reply),
        waits: waits_by(watch.waits, &entry.op, &entry.reply),
        serviced: serviced_by(watch.serviced, &entry.op),
        since: since_by(watch.since, step, &entry.op),
        waiter: at_wait(watch.waiter, entry.actor, &entry.reply),
        waited: at_wait(watch.waited, step, &entry.reply),
    }
}

/// The callouts before the first note.
pub(crate) fn opened(alloc: Global, timers: usize) -> Result<Seq<Watch>, NoMemory>
    ensures { IfOk result (λ scene. scene ≡ replicate timers quiet) }
{
    Seq::filled(alloc, timers, quiet())
}

/// What is known of a callout; nothing of one that there is not.
pub(crate) fn watch_of(scene: &[Watch], timer: u32) -> Watch
    ensures { result ≡ watch_of scene.now timer }
{
    match scene.get(timer as usize) {
        Some(watch) => *watch,
        None => quiet(),
    }
}

/// Takes an entry of a callout.
fn take_entry(scene: &mut Seq<Watch>, step: usize, timer: u32, entry: &Entry)
    ensures { scene.new ≡ slice_set scene.old timer (watched step (watch_of scene.old timer) entry.now) }
{
    let next = watched(step, watch_of(scene.as_slice(), timer), entry);
    if (timer as usize) < scene.as_slice().len() {
        scene.replace(timer as usize, next);
    }
}

/// Takes the note of a line, which is that of this step.
pub(crate) fn take(scene: &mut Seq<Watch>, step: usize, line: &Line)
    ensures { scene.new ≡ scene_behind step scene.old line.now.place line.now.entry }
{
    match line.place {
        Place::Timer(timer) => match &line.entry {
            AnyEntry::Timer(entry) => take_entry(scene, step, timer, entry),
            _ => {}
        },
        _ => {}
    }
}
