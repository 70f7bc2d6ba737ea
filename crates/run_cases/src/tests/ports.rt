//! The functions of a script, run through ports over one service, each on a thread of its own, while the lock of another CPU is kept.
ghost use Rattle.std.specs.Prelude.{◌≡◌, ◌<◌, length};
ghost use Rattle.co_program.specs.Scripts.{IsScript};
ghost use Rattle.co_service.specs.Booted.{AreBooted};
ghost use Rattle.co_desk.specs.Views.{AreOf};
ghost use Rattle.run_cases.specs.Scenes.{two_clients};

use super::running::script_of;
use super::scene::{SPECS, boot, leave_clients};
use super::waits::{Waits, nothing_told};
use co_hand::{Fire, FuncTable, Handler, PortCall, PortReply};
use co_object::{PlainOp, Reply};
use co_program::Script;
use co_run::ServicePort;
use co_sbt::{Sbt, Seq};
use co_service::{Fresh, Name, Passes, Service};
use std::alloc::Global;
use std::marker::Brand;
use std::process::Abort;
use std::sync::Wait;
use std::thread::{Threads, join};

/// Two functions over two callouts, which are at the first CPU and the third.
const FUNCTIONS: &str = "callout 1
cpus 3
funcs 2
timer 0 mpsafe
timer 1 mpsafe
func 0
reset me +1 f0 a7
pending me
stop me
reset 0 =1 f0 a0 cpu 2
stop 0
func 1
reset 1 =3 f1 a8 cpu here
active 1
stop 1
";

/// The most acts of a function.
const MOST_ACTS: u32 = 65536;

/// The service of callout `i` at one second, in which the function of this number runs.
fn fire(i: u32, cpu: u32) -> Fire
    ensures i { result.i ≡ i }
    ensures cpu { result.cpu ≡ cpu }
    ensures func { result.func ≡ i }
{
    Fire {
        i,
        n: 0,
        func: i,
        arg: 0,
        cpu,
        at: Sbt::from_ticks(1, 1),
    }
}

/// The calls of a function, which runs in the service of callout `i`.
fn calls_of<N: Name, R: Wait + Sync + Abort>(
    rt: &R,
    alloc: Global,
    script: &Script,
    service: &Service<N>,
    gate: &Waits<'_>,
    passes: Passes,
    i: u32,
) -> Seq<PortCall>
    requires script { IsScript script.now }
    requires callouts { length script.now.timers ≡ 2 }
    requires cpus { script.now.cpus ≡ 3 }
    requires scene { service.now ≡ two_clients }
    requires passes { AreOf N.name service.now passes }
    requires callout { i < 2 }
{
    let mut table = FuncTable::new(alloc, script).expect(rt, "no memory");
    let mut port = ServicePort::new(rt, alloc, gate, service, &SPECS, passes, 0, MOST_ACTS).expect(
        rt,
        "no memory",
    );
    table.run(&fire(i, 2), None, &mut port);
    let (passes, calls) = port.into_parts();
    drop(passes);
    calls
}

/// The calls of both functions, each in a thread of its own.
fn calls_of_both<N: Name + Send + Sync, R: Threads + Wait + Sync + Abort>(
    rt: &R,
    alloc: Global,
    script: &Script,
    gate: &Waits<'_>,
    service: &Service<N>,
    one: Passes,
    other: Passes,
) -> (Seq<PortCall>, Seq<PortCall>)
    requires script { IsScript script.now }
    requires callouts { length script.now.timers ≡ 2 }
    requires cpus { script.now.cpus ≡ 3 }
    requires scene { service.now ≡ two_clients }
    requires one { AreOf N.name service.now one }
    requires other { AreOf N.name service.now other }
{
    join(
        rt,
        || -> Seq<PortCall>
            requires { IsScript script.now × (length script.now.timers ≡ 2) × (script.now.cpus ≡ 3) × (service.now ≡ two_clients) × AreOf N.name service.now one }
        { calls_of(rt, alloc, script, service, gate, one, 0) },
        || -> Seq<PortCall>
            requires { IsScript script.now × (length script.now.timers ≡ 2) × (script.now.cpus ≡ 3) × (service.now ≡ two_clients) × AreOf N.name service.now other }
        { calls_of(rt, alloc, script, service, gate, other, 1) },
    )
}

/// Opens the service, and runs both functions on it while the second CPU's lock is kept: there is a lock for each CPU.
fn run_both<N: Name + Send + Sync, R: Threads + Wait + Sync + Abort>(
    rt: &R,
    alloc: Global,
    script: &Script,
    gate: &Waits<'_>,
    fresh: Fresh,
    passes: Seq<Passes>,
) -> (Seq<PortCall>, Seq<PortCall>)
    requires script { IsScript script.now }
    requires callouts { length script.now.timers ≡ 2 }
    requires cpus { script.now.cpus ≡ 3 }
    requires name { fresh.name ≡ N.name }
    requires scene { fresh.params ≡ two_clients }
    requires passes { AreBooted fresh.name fresh.params passes }
{
    let service = Service::<N>::open(alloc, fresh).expect(rt, "no memory");
    let (one, other) = leave_clients(&service, passes);
    let hold = service.hold_desk(rt, 1);
    assert!(rt; hold.cpu() == 1);
    let calls = calls_of_both(rt, alloc, script, gate, &service, one, other);
    drop(hold);
    drop(service);
    calls
}

/// A reset of function `i` to a time in seconds, at this CPU or at home.
fn reset(seconds: i32, i: u32, arg: u64, cpu: Option<u32>) -> PlainOp {
    PlainOp::Reset {
        due: Sbt::from_ticks(seconds, 1),
        prec: Sbt::zero(),
        func: i,
        arg,
        cpu,
    }
}

/// A call on callout `i` with this answer.
fn call(i: u32, op: PlainOp, reply: Reply) -> PortCall {
    PortCall {
        i,
        op,
        answer: PortReply::Reply(reply),
    }
}

/// An arming of this number at a CPU.
fn armed(n: u64, cpu: u32) -> Reply {
    Reply::Armed {
        code: 0,
        n,
        cpu,
        off: None,
    }
}

/// A stop that takes the arming away from a CPU.
fn stopped(cpu: u32) -> Reply {
    Reply::Stopped {
        code: 1,
        off: Some(cpu),
    }
}

/// Whether the functions made these calls.
fn are_made(first: &Seq<PortCall>, second: &Seq<PortCall>) -> bool {
    let home = [
        call(0, reset(2, 0, 7, None), armed(0, 0)),
        call(0, PlainOp::Pending, Reply::Yes),
        call(0, PlainOp::Stop, stopped(0)),
        call(0, reset(1, 0, 0, Some(2)), armed(1, 2)),
        call(0, PlainOp::Stop, stopped(2)),
    ];
    let here = [
        call(1, reset(3, 1, 8, Some(2)), armed(0, 2)),
        call(1, PlainOp::Active, Reply::Yes),
        call(1, PlainOp::Stop, stopped(2)),
    ];
    first.as_slice() == home.as_slice() && second.as_slice() == here.as_slice()
}

/// Runs both functions on a service that is booted for them. Whether their calls are as they have to be, and each announces
/// its acts.
fn run_through_ports<R: Threads + Wait + Sync + Abort>(
    rt: &R,
    alloc: Global,
    script: &Script,
) -> bool
    requires { IsScript script.now }
{
    assert!(rt; script.timers.as_slice().len() == 2);
    assert!(rt; script.cpus == 3);
    let told = nothing_told(rt, alloc, 2);
    let gate = Waits::new(&[], told.as_slice());
    let (fresh, passes) = boot(rt, alloc);
    let (first, second) = run_both::<Brand, _>(rt, alloc, script, &gate, fresh, passes);
    let made = are_made(&first, &second);
    drop(first);
    drop(second);
    let kept = gate.is_kept(&[5, 3]);
    drop(gate);
    drop(told);
    made && kept
}

#[test]
fn functions_call_through_ports(rt: HostRuntime) {
    let alloc = rt.alloc();
    let script = script_of(&rt, alloc, FUNCTIONS.as_bytes());
    assert!(rt; run_through_ports(&rt, alloc, &script));
    drop(script);
}
