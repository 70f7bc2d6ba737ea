//! A callout with a mutex is stopped while its service waits for the mutex.
ghost use Rattle.std.specs.Prelude.{◌≡◌, ◌∷◌, [], ℕ, Bool, IfOk, false, true};
ghost use Rattle.co_object.specs.declared.op.CallOp.TheVariants.{Plain};
ghost use Rattle.co_service.specs.Booted.{AreBooted};
ghost use Rattle.co_desk.specs.Call.{NamesCpu};
ghost use Rattle.service_cases.specs.Scenes.{IsLocked};
ghost use Rattle.co_desk.specs.Services.{HasNext, IsServing};
ghost use Rattle.co_desk.specs.Serving.{Waits};
ghost use Rattle.co_desk.specs.Views.{AreOf, PassesView};

use super::acts::{finish, rest, tick};
use super::cast::leave_two;
use super::notes::{Lane, Row, Told};
use super::stage::{keep, keep_all, seconds};
use co_lock::{ClientLocks, Hold, LockKind};
use co_object::{CallOp, LockUse, Note, Place, PlainOp, Reply, Spec};
use co_sbt::{NoMemory, Sbt, Seq};
use co_service::{Fresh, Name, Passes, Service, Taken};
use std::alloc::Global;
use std::process::Abort;
use std::sync::Wait;

/// A service of one client, one CPU and one callout with mutex 0.
pub(super) fn boot_locked(alloc: Global) -> Result<(Fresh, Seq<Passes>), NoMemory>
    ensures scene { IfOk result (λ made. IsLocked made.0.params) }
    ensures passes { IfOk result (λ made. AreBooted made.0.name made.0.params made.1) }
{
    let spec = Spec {
        lock: LockUse::Mtx(0),
        returns_unlocked: false,
        direct: false,
    };
    Service::boot(alloc, 1, 1, 16, 1, &[spec])
}

/// The client's call on the callout, while it holds the mutex.
fn ask_held<N: Name, R: Wait + Abort>(
    rt: &R,
    service: &Service<N>,
    log: &mut Vec<Note>,
    passes: &mut Passes,
    act: u64,
    op: PlainOp,
    hold: &Hold<'_>,
)
    requires scene { IsLocked service.now }
    requires passes { AreOf N.name service.now passes.old }
    requires cpu { NamesCpu service.now.cpus (Plain op) }
    requires hold { hold.now ≡ record { id = 0; exclusive = true } }
    ensures { AreOf N.name service.now passes.new }
{
    let op = CallOp::Plain(op);
    let made = service.call(rt, passes, act, 0, &op, Some(hold));
    keep_all(rt, log, made.notes);
}

/// Keeps the notes of a start that waits for the lock of callout 0. The answer is its arming.
fn keep_waiting<R: Abort>(rt: &R, log: &mut Vec<Note>, taken: Taken) -> u64
    ensures { (direct : Bool) (q : PassesView) (cpu : ℕ) → HasNext direct q cpu taken → IsServing direct q cpu (record { i = 0; n = result }) (Waits result) }
{
    let Taken::Took {
        i: 0,
        n,
        reply: Reply::Hold,
        pop,
        pick,
        ..
    } = taken
    else {
        panic!(rt; "nothing waits for the mutex");
    };
    keep(rt, log, pop);
    keep(rt, log, pick);
    n
}

/// The CPU, whose service of this arming waits, begins under the mutex, and its service ends.
fn end_what_waits<N: Name, R: Wait + Abort + Sync>(
    rt: &R,
    service: &Service<N>,
    log: &mut Vec<Note>,
    cpu: &mut Passes,
    n: u64,
    locks: &ClientLocks,
)
    requires scene { IsLocked service.now }
    requires cpu { AreOf N.name service.now cpu.old }
    requires serving { IsServing false cpu.old 0 (record { i = 0; n = n }) (Waits n) }
    requires locks { locks.now ≡ LockKind.Mtx ∷ [] }
{
    let hold = locks.lock(rt, 0);
    let made = service.begin(rt, cpu, 0, 0, &hold);
    keep_all(rt, log, made.notes);
    drop(hold);
    finish(rt, service, log, cpu, 0);
    service.drain_wait(rt, 0, 0);
    rest(rt, service, log, cpu, 0);
}

/// The client stops the callout, whose service by the CPU waits for the mutex that the client holds. The CPU then skips it.
pub(super) fn play<N: Name, R: Wait + Abort + Sync>(
    rt: &R,
    alloc: Global,
    service: &Service<N>,
    log: &mut Vec<Note>,
    passes: Seq<Passes>,
)
    requires scene { IsLocked service.now }
    requires passes { AreBooted N.name service.now passes }
{
    let locks = ClientLocks::new(alloc, &[LockKind::Mtx]).expect(rt, "no memory");
    let (mut client, mut cpu) = leave_two(service, passes);
    let hold = locks.lock(rt, 0);
    let arming = PlainOp::Reset {
        due: seconds(1),
        prec: Sbt::zero(),
        func: 0,
        arg: 0,
        cpu: None,
    };
    ask_held(rt, service, log, &mut client, 1, arming, &hold);
    tick(rt, service, log, &mut cpu, 0, seconds(1));
    let taken = service.next(rt, &mut cpu, 0, 0, 1);
    let n = keep_waiting(rt, log, taken);
    ask_held(rt, service, log, &mut client, 2, PlainOp::Stop, &hold);
    drop(hold);
    end_what_waits(rt, service, log, &mut cpu, n, &locks);
    drop(client);
    drop(cpu);
    drop(locks);
}

pub(super) static NOTES: [Row; 10] = [
    (Place::Timer(0), 0, 0, 1, Told::Armed(1, 0, None, 0, 0)),
    (Place::Cpu(0), 0, 0, 1, Told::Inserted(0, 0, 1)),
    (Place::Cpu(0), 1, 1, 0, Told::Scanned(1, 1)),
    (Place::Cpu(0), 2, 1, 0, Told::Popped(Lane::Own, 0, 0, 1)),
    (Place::Timer(0), 1, 1, 0, Told::Picked(0, 0, 1, None)),
    (Place::Timer(0), 2, 0, 2, Told::Stopped(1, None)),
    (Place::Timer(0), 3, 1, 0, Told::Skipped(0, 0)),
    (Place::Timer(0), 4, 1, 0, Told::Ended(0, 0, None)),
    (Place::Cpu(0), 3, 1, 0, Told::Freed(Lane::Own)),
    (Place::Cpu(0), 4, 1, 0, Told::Empty(Lane::Own)),
];
