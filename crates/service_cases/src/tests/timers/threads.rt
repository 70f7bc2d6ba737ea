//! A client and a CPU, each in a thread of its own.
ghost use Rattle.std.specs.Prelude.{◌≡◌};
ghost use Rattle.service_cases.specs.Timers.{scene};

use super::functions::{Functions, NOTHING};
use super::stage::{boot, open, seconds};
use co_sbt::Sbt;
use co_service::Name;
use co_timers::{Client, Cpu, Stopped, TimersFresh};
use std::alloc::Global;
use std::marker::Brand;
use std::process::Abort;
use std::sync::Wait;
use std::sync::atomic::{AtomicBool, Ordering};
use std::thread::{Threads, join};

/// How often callout 0 is armed.
const ARMINGS: u64 = 64;

/// Arms callout 0 and stops it, again and again. The answer is how many armings it cancelled.
fn arm_often<N: Name, R: Wait>(rt: &R, mut client: Client<'_, N>, over: &AtomicBool) -> u64 {
    let mut cancelled: u64 = 0;
    for _ in 0..ARMINGS {
        let _armed = client.reset(rt, 0, seconds(0), Sbt::zero(), 0, 7, None, None);
        if client.stop(rt, 0, None) == Ok(Stopped::Cancelled) {
            cancelled = cancelled.wrapping_add(1);
        }
    }
    over.store(true, Ordering::SeqCst);
    drop(client);
    cancelled
}

/// Turns until all is over, and once more, with functions of this client. The answer is how many functions it called.
fn turn_often<N: Name, R: Wait + Sync>(
    rt: &R,
    mut cpu: Cpu<'_, N>,
    client: Client<'_, N>,
    over: &AtomicBool,
) -> u64
    requires { cpu.others.passes.params ≡ scene }
{
    let mut functions = Functions {
        rt,
        client,
        seen: NOTHING,
    };
    let mut called: u64 = 0;
    for _ in rt.forever() {
        let last = over.load(Ordering::SeqCst);
        let turned = cpu.turn(rt, seconds(1), &mut functions);
        called = called.wrapping_add(turned.others.called);
        if last {
            drop((cpu, functions));
            return called;
        }
    }
    unreachable!()
}

/// Both at once: how many armings were cancelled, and how many functions were called.
fn both<N: Name + Send + Sync, R: Threads + Wait + Sync>(
    rt: &R,
    client: Client<'_, N>,
    cpu: Cpu<'_, N>,
    other: Client<'_, N>,
) -> (u64, u64)
    requires { cpu.others.passes.params ≡ scene }
{
    let over = AtomicBool::new(false);
    join(
        rt,
        || -> u64 { arm_often(rt, client, &over) },
        || -> u64
            requires { cpu.others.passes.params ≡ scene }
        { turn_often(rt, cpu, other, &over) },
    )
}

/// The same on a service that is opened for it.
fn play<N: Name + Send + Sync, R: Threads + Wait + Sync + Abort>(
    rt: &R,
    alloc: Global,
    fresh: TimersFresh,
) -> (u64, u64)
    requires name { fresh.name ≡ N.name }
    requires scene { fresh.params ≡ scene }
{
    let (timers, mut posts) = open::<N, R>(rt, alloc, fresh);
    let client = posts.client(&timers, 0).expect(rt, "client 0 is here");
    let cpu = posts.cpu_handle(&timers, 0).expect(rt, "CPU 0 is here");
    let other = posts.client(&timers, 1).expect(rt, "client 1 is here");
    let story = both(rt, client, cpu, other);
    drop((timers, posts));
    story
}

#[test]
fn no_arming_is_called_and_cancelled(rt: HostRuntime) {
    let fresh = boot(&rt, rt.alloc());
    let (cancelled, called) = play::<Brand, _>(&rt, rt.alloc(), fresh);
    // A stop while an earlier call runs answers 0, and takes the new arming away.
    assert!(rt; cancelled.wrapping_add(called) <= ARMINGS);
}
