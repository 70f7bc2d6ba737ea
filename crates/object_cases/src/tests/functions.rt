//! A script's functions, run over callouts alone.
ghost use Rattle.std.specs.Prelude.{◌≡◌, ◌≤◌, ℕ, ◌∷◌, [], length, false};
ghost use Rattle.co_lock.specs.declared.lock_kind.LockKind.TheVariants as kind;
ghost use Rattle.co_program.specs.Actors.{acts_at};
ghost use Rattle.co_program.specs.Scripts.{IsScript};
ghost use Rattle.co_hand.specs.Handlers.{Serves};
ghost use Rattle.object_cases.specs.Tables.{IsWorked};

use super::ports::AlonePort;
use co_hand::{Fire, FuncTable, Handler, Port, PortCall, PortReply, plain_op};
use co_lock::{ClientLocks, Held, Hold, LockKind};
use co_object::{Alone, CallOp, LockUse, Op, PlainOp, Reply, RunOp, Spec};
use co_program::{Act, Acts, Script, When, Where, Who};
use co_sbt::{Sbt, Seq};
use std::alloc::Global;
use std::process::Abort;
use std::sync::Wait;

/// The time of so many seconds.
fn seconds(count: i32) -> Sbt {
    Sbt::from_ticks(count, 1)
}

/// The list of one item. There is memory for it.
fn one<T: Drop, R: Abort>(rt: &R, alloc: Global, item: T) -> Seq<T>
    ensures { result ≡ item ∷ [] }
{
    let mut list = Seq::new(alloc);
    list.push(item).expect(rt, "no memory");
    list
}

/// The list of two items. There is memory for it.
pub fn two<T: Drop, R: Abort>(rt: &R, alloc: Global, first: T, second: T) -> Seq<T>
    ensures { result ≡ first ∷ second ∷ [] }
{
    let mut list = one(rt, alloc, first);
    list.push(second).expect(rt, "no memory");
    list
}

/// A callout on one CPU. Function 0 arms it again in a second and stops it, and function 1 asks whether it is active.
pub fn worked_script<R: Abort>(rt: &R, alloc: Global, spec: Spec) -> Script
    requires { spec.direct ≡ false }
    ensures { IsScript result × (length result.timers ≡ 1) × (result.cpus ≡ 1) × ((func : ℕ) → length (acts_at result.funcs func) ≤ 2) }
{
    let again = Act::Reset {
        who: Who::Me,
        when: When::After(seconds(1)),
        func: 0,
        arg: 0,
        cpu: Where::Home,
        prec: Sbt::zero(),
    };
    let arms = two(rt, alloc, again, Act::Stop(Who::Me));
    let asks = one(rt, alloc, Act::Active(Who::Me));
    let funcs = two(rt, alloc, arms, asks);
    let timers = one(rt, alloc, spec);
    let ticks = one(rt, alloc, Seq::new(alloc));
    Script {
        version: 1,
        hz: 1000,
        cpus: 1,
        buckets: 256,
        locks: Seq::new(alloc),
        timers,
        funcs,
        clients: Seq::new(alloc),
        ticks,
        turns: Seq::new(alloc),
    }
}

/// The functions of that script.
pub fn worked_table<R: Abort>(rt: &R, alloc: Global, spec: Spec) -> FuncTable
    requires { spec.direct ≡ false }
    ensures { IsWorked result }
{
    let script = worked_script(rt, alloc, spec);
    let table = FuncTable::new(alloc, &script).expect(rt, "no memory");
    drop(script);
    table
}

pub fn spec_of(lock: LockUse, returns_unlocked: bool) -> Spec
    ensures { result.direct ≡ false }
{
    Spec {
        lock,
        returns_unlocked,
        direct: false,
    }
}

/// The fire of the callout's first arming, due at one second, for function 0.
pub fn first_fire() -> Fire
    ensures { (result.i ≡ 0) × (result.cpu ≡ 0) }
{
    Fire {
        i: 0,
        n: 0,
        func: 0,
        arg: 0,
        cpu: 0,
        at: seconds(1),
    }
}

/// A callout that was armed for one second, and whose function runs.
pub fn running(spec: Spec) -> Alone
    ensures { result.spec ≡ spec }
{
    let mut callout = Alone::open(spec, 0);
    let reset = PlainOp::Reset {
        due: seconds(1),
        prec: Sbt::zero(),
        func: 0,
        arg: 0,
        cpu: None,
    };
    let at = seconds(1);
    for op in [
        Op::Call(CallOp::Plain(reset)),
        Op::Run(RunOp::Pick { n: 0, cpu: 0, at }),
        Op::Run(RunOp::Begin { n: 0, cpu: 0 }),
    ] {
        let _ = callout.step(&op);
    }
    callout
}

/// Runs the function of the fire, as any handler does.
fn serve<H: Handler, P: Port>(
    handler: &mut H,
    fire: &Fire,
    hold: Option<&mut Hold<'_>>,
    port: &mut P,
)
    requires { Serves (H.needs handler.old) (P.state port.old) fire.now fire.now.func }
{
    handler.run(fire, hold, port);
}

/// The calls that function 0 of that table makes, under this hold, in the service of a callout of this spec.
fn calls_of_served<R: Abort>(
    rt: &R,
    alloc: Global,
    spec: Spec,
    table: &mut FuncTable,
    hold: Option<&mut Hold<'_>>,
) -> Seq<PortCall>
    requires table { IsWorked table.old }
{
    let mut callouts = [running(spec)];
    let mut port = AlonePort::new(rt, alloc, &mut callouts, 5, 2);
    serve(table, &first_fire(), hold, &mut port);
    port.into_calls()
}

/// The calls that function 0 makes, under this hold, in the service of a callout of this spec.
fn calls_of_run<R: Abort>(
    rt: &R,
    alloc: Global,
    spec: Spec,
    hold: Option<&mut Hold<'_>>,
) -> Seq<PortCall>
    requires { spec.direct ≡ false }
{
    let mut table = worked_table(rt, alloc, spec);
    let calls = calls_of_served(rt, alloc, spec, &mut table, hold);
    drop(table);
    calls
}

/// The first act of function 0, at one second.
pub fn again(answer: PortReply) -> PortCall {
    PortCall {
        i: 0,
        op: PlainOp::Reset {
            due: seconds(2),
            prec: Sbt::zero(),
            func: 0,
            arg: 0,
            cpu: None,
        },
        answer,
    }
}

/// The second act of function 0.
pub fn stop(answer: PortReply) -> PortCall {
    PortCall {
        i: 0,
        op: PlainOp::Stop,
        answer,
    }
}

/// The function's reset arms the callout again, in its service.
const ARMED: PortReply = PortReply::Reply(Reply::Armed {
    code: 0,
    n: 1,
    cpu: 0,
    off: None,
});

/// A stop after that takes the arming away, and not the service.
const STOPPED: PortReply = PortReply::Reply(Reply::Stopped {
    code: 0,
    off: Some(0),
});

/// Whether the calls are these.
pub fn are(calls: Seq<PortCall>, expected: &[PortCall]) -> bool {
    let same = calls.as_slice() == expected;
    drop(calls);
    same
}

#[test]
fn a_function_makes_its_acts_in_order(rt: HostRuntime) {
    let free = spec_of(LockUse::Free, false);
    let calls = calls_of_run(&rt, rt.alloc(), free, None);
    assert!(rt; are(calls, &[again(ARMED), stop(STOPPED)]));
}

/// A mutex and a reader-writer lock.
fn two_locks<R: Abort>(rt: &R, alloc: Global) -> ClientLocks
    ensures { result ≡ kind.Mtx ∷ kind.Rw ∷ [] }
{
    ClientLocks::new(alloc, &[LockKind::Mtx, LockKind::Rw]).expect(rt, "no memory")
}

/// Whether both calls are made under the mutex.
fn are_made_under_the_mutex<R: Wait + Sync + Abort>(
    rt: &R,
    alloc: Global,
    locks: &ClientLocks,
) -> bool
    requires { locks.now ≡ kind.Mtx ∷ kind.Rw ∷ [] }
{
    let locked = spec_of(LockUse::Mtx(0), false);
    let mut hold = locks.lock(rt, 0);
    let calls = calls_of_run(rt, alloc, locked, Some(&mut hold));
    drop(hold);
    are(calls, &[again(ARMED), stop(STOPPED)])
}

/// Whether the stop is refused under a hold in read mode, which stays.
fn is_refused_under_a_read<R: Wait + Sync + Abort>(
    rt: &R,
    alloc: Global,
    locks: &ClientLocks,
) -> bool
    requires { locks.now ≡ kind.Mtx ∷ kind.Rw ∷ [] }
{
    let shared = spec_of(LockUse::RwShared(1), false);
    let mut hold = locks.read(rt, 1);
    let calls = calls_of_run(rt, alloc, shared, Some(&mut hold));
    let reading = Held {
        id: 1,
        exclusive: false,
    };
    let stays = hold.held() == reading;
    drop(hold);
    are(calls, &[again(ARMED), stop(PortReply::NotHeld)]) && stays
}

#[test]
fn calls_are_made_under_the_hold(rt: HostRuntime) {
    let locks = two_locks(&rt, rt.alloc());
    assert!(rt; are_made_under_the_mutex(&rt, rt.alloc(), &locks));
    assert!(rt; is_refused_under_a_read(&rt, rt.alloc(), &locks));
    drop(locks);
}

/// The calls that this function of that table makes in an asynchronous drain.
fn calls_of_drain_by<R: Abort>(
    rt: &R,
    alloc: Global,
    spec: Spec,
    table: &mut FuncTable,
    func: u32,
) -> Seq<PortCall>
    requires { IsWorked table.old }
{
    let mut callouts = [Alone::open(spec, 0)];
    let mut port = AlonePort::new(rt, alloc, &mut callouts, 5, 2);
    table.drained(&first_fire(), func, &mut port);
    port.into_calls()
}

/// The calls that this function of an asynchronous drain makes.
fn calls_of_drained<R: Abort>(rt: &R, alloc: Global, func: u32) -> Seq<PortCall> {
    let spec = spec_of(LockUse::Free, false);
    let mut table = worked_table(rt, alloc, spec);
    let calls = calls_of_drain_by(rt, alloc, spec, &mut table, func);
    drop(table);
    calls
}

#[test]
fn a_drain_function_makes_its_acts(rt: HostRuntime) {
    let asks = PortCall {
        i: 0,
        op: PlainOp::Active,
        answer: PortReply::Reply(Reply::No),
    };
    assert!(rt; are(calls_of_drained(&rt, rt.alloc(), 1), &[asks]));
    assert!(rt; are(calls_of_drained(&rt, rt.alloc(), 7), &[]));
}

/// Whether an act of the actor of callout 4, at CPU 2, asks for this operation, or for none.
fn asks_for(act: Act, asked: Option<(u32, PlainOp)>) -> bool {
    plain_op(&act, 1000000, Sbt::zero(), 2, Some(4)) == asked
}

#[test]
fn acts_ask_for_operations(rt: HostRuntime) {
    let ticks = Act::Ticks {
        who: Who::Me,
        ticks: 1,
        func: 1,
        arg: 7,
        cpu: Where::Here,
    };
    let reset = PlainOp::Reset {
        due: Sbt::new(4294).expect(&rt, "4294 is a time"),
        prec: Sbt::zero(),
        func: 1,
        arg: 7,
        cpu: Some(2),
    };
    let retire = Act::Retire(Who::Timer(3));
    assert!(rt; asks_for(ticks, Some((4, reset))));
    assert!(rt; asks_for(retire, Some((3, PlainOp::Retire))));
    assert!(rt; asks_for(Act::Drain(3), None));
}
