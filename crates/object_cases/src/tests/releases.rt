//! A function that begins after the release of its callout's lock, beside a thread that wants the lock.
ghost use Rattle.std.specs.Prelude.{◌≡◌, ◌<◌, length};
ghost use Rattle.object_cases.specs.Tables.{IsWorked};

use super::functions::{again, are, first_fire, running, spec_of, stop, worked_table};
use super::ports::AlonePort;
use super::turns::comes_to;
use co_hand::{FuncTable, Handler, Port, PortCall, PortReply};
use co_lock::{ClientLocks, Hold, LockKind};
use co_object::{LockUse, PlainOp, Spec};
use co_sbt::Seq;
use std::alloc::Global;
use std::process::Abort;
use std::sync::Wait;
use std::sync::atomic::{AtomicU64, Ordering};
use std::thread::{Threads, join};

/// How many calls have begun, how often the other thread has had the lock, and in how many calls it had not in time.
#[derive(Drop)]
struct Needs {
    begun: AtomicU64,
    had: AtomicU64,
    in_vain: AtomicU64,
}

/// A port each of whose calls needs the lock to be free: another thread takes it meanwhile, or the wait for it ends in vain.
#[derive(Drop)]
struct NeedingPort<'a, P: Port> {
    needs: &'a Needs,
    port: &'a mut P,
}

impl<'a, P: Port> NeedingPort<'a, P> {
    fn new(needs: &'a Needs, port: &'a mut P) -> NeedingPort<'a, P>
        ensures { P.state result.port.now ≡ P.state port.old }
    {
        NeedingPort { needs, port }
    }
}

impl<'a, P: Port> Port for NeedingPort<'a, P> {
    type Origin = P::Origin;

    ghost state = { λ p. P.state p.port.now };

    fn call(&mut self, i: u32, op: &PlainOp, hold: Option<&Hold<'_>>) -> PortReply {
        let call = self
            .needs
            .begun
            .fetch_add(1, Ordering::SeqCst)
            .wrapping_add(1);
        if !comes_to(&self.needs.had, call) {
            self.needs.in_vain.fetch_add(1, Ordering::SeqCst);
        }
        self.port.call(i, op, hold)
    }
}

/// The calls that function 0 of that table makes after the release of this hold, in the service of a callout of this spec.
fn calls_of_released<R: Abort>(
    rt: &R,
    alloc: Global,
    spec: Spec,
    table: &mut FuncTable,
    hold: Hold<'_>,
    needs: &Needs,
) -> Seq<PortCall>
    requires { IsWorked table.old }
{
    let mut callouts = [running(spec)];
    let mut port = AlonePort::new(rt, alloc, &mut callouts, 5, 2);
    let mut needing = NeedingPort::new(needs, &mut port);
    table.run_unlock(&first_fire(), hold, &mut needing);
    port.into_calls()
}

/// The calls that function 0 makes after the release of lock 0.
fn calls_of_run_unlock<R: Wait + Sync + Abort>(
    rt: &R,
    alloc: Global,
    locks: &ClientLocks,
    needs: &Needs,
) -> Seq<PortCall>
    requires { 0 < length locks.now }
{
    let spec = spec_of(LockUse::Mtx(0), true);
    let mut table = worked_table(rt, alloc, spec);
    let calls = calls_of_released(rt, alloc, spec, &mut table, locks.lock(rt, 0), needs);
    drop(table);
    calls
}

/// Takes lock 0 in each of two calls of another thread.
fn lock_in_calls<R: Wait + Sync>(rt: &R, locks: &ClientLocks, needs: &Needs)
    requires { 0 < length locks.now }
{
    for call in 1..3_u64 {
        if comes_to(&needs.begun, call) {
            drop(locks.lock(rt, 0));
            needs.had.fetch_add(1, Ordering::SeqCst);
        }
    }
}

/// Whether function 0 makes its calls without a hold, and the other thread waited for the lock in vain in none.
fn calls_beside_a_lock<R: Threads + Wait + Sync + Abort>(
    rt: &R,
    alloc: Global,
    locks: &ClientLocks,
) -> [bool; 2]
    requires { 0 < length locks.now }
{
    let needs = Needs {
        begun: AtomicU64::new(0),
        had: AtomicU64::new(0),
        in_vain: AtomicU64::new(0),
    };
    let (calls, ()) = join(
        rt,
        || -> Seq<PortCall>
            requires { 0 < length locks.now }
        { calls_of_run_unlock(rt, alloc, locks, &needs) },
        ||
            requires { 0 < length locks.now }
        { lock_in_calls(rt, locks, &needs) },
    );
    let not_held = [again(PortReply::NotHeld), stop(PortReply::NotHeld)];
    let none_in_vain = needs.in_vain.load(Ordering::SeqCst) == 0;
    [are(calls, &not_held), none_in_vain]
}

#[test]
fn the_hold_is_released_before_the_first_act(rt: HostRuntime) {
    let locks = ClientLocks::new(rt.alloc(), &[LockKind::Mtx]).expect(&rt, "no memory");
    assert!(rt; calls_beside_a_lock(&rt, rt.alloc(), &locks) == [true, true]);
    drop(locks);
}
