//! Threads that call one service.
ghost use Rattle.std.specs.Prelude.{◌≡◌, ◌<◌, ◌≤◌, ◌+◌, ◌*◌, IfOk, length};
ghost use Rattle.std.specs.List.{All};
ghost use Rattle.co_object.specs.declared.op.CallOp.TheVariants.{Plain};
ghost use Rattle.co_service.specs.Booted.{AreBooted};
ghost use Rattle.co_desk.specs.declared.params.Params.{Params};
ghost use Rattle.co_desk.specs.Call.{NamesCpu};
ghost use Rattle.co_desk.specs.Name.{ServiceName};
ghost use Rattle.co_desk.specs.Views.{AreOf};
ghost use Rattle.callout_bench.specs.Team.{IsClient, IsPlain, IsTeam};

use crate::work::{Calls, Work};
use co_object::{CallOp, LockUse, PlainOp, Reply, Spec};
use co_sbt::{NoMemory, Sbt, Seq};
use co_service::{Fresh, Name, Passes, Service, Told};
use std::alloc::Global;
use std::marker::Brand;
use std::sync::Wait;
use std::thread::{Threads, map_vec};

/// How many callouts each thread has.
const OWN: u32 = 16;

/// What is fixed of a callout without a lock.
const PLAIN: Spec = Spec {
    lock: LockUse::Free,
    returns_unlocked: false,
    direct: false,
};

/// What is fixed of `callouts` callouts without a lock. `NoMemory` where there is no room for them.
fn plain_specs(alloc: Global, callouts: u32) -> Result<Seq<Spec>, NoMemory>
    ensures count { IfOk result (λ specs. length specs ≡ callouts) }
    ensures each { IfOk result (All IsPlain) }
{
    Seq::filled(alloc, callouts as usize, PLAIN)
}

/// A service with a client and the callouts for each thread, and one CPU of 16 buckets more than there are threads, before its
/// locks; and each actor's passes of it.
fn boot_team(alloc: Global, work: &Work) -> Result<(Fresh, Seq<Passes>), NoMemory>
    requires { (1 ≤ work.now.threads) × (work.now.threads ≤ 15) }
    ensures team { IfOk result (λ made. IsTeam work.now made.0.params) }
    ensures passes { IfOk result (λ made. AreBooted made.0.name made.0.params made.1) }
{
    let specs = plain_specs(alloc, work.threads * OWN)?;
    let cpus = work.threads + 1;
    Fresh::boot(alloc, 1, cpus, 16, work.threads, specs.as_slice())
}

/// A call on a thread's callout, which needs no hold.
fn ask<N: Name, R: Wait>(
    rt: &R,
    service: &Service<N>,
    work: &Work,
    calls: Calls,
    passes: &mut Passes,
    act: u64,
    i: u32,
    op: PlainOp,
) -> Reply
    requires team { IsTeam work.now service.now }
    requires passes { AreOf N.name service.now passes.old }
    requires callout { i < work.now.threads * 16 }
    requires cpu { NamesCpu (work.now.threads + 1) (Plain op) }
    ensures { AreOf N.name service.now passes.new }
{
    let _ = work;
    let op = CallOp::Plain(op);
    if matches!(calls, Calls::Noted) {
        return service.call(rt, passes, act, i, &op, None).reply;
    }
    let mut told = Told::none();
    service.call_into(rt, passes, act, i, &op, None, &mut told);
    told.reply()
}

/// A thread's calls: its callouts are reset at its place and stopped, in turn. The answer is how many stops took an arming
/// away.
fn hammer<N: Name, R: Wait>(
    rt: &R,
    service: &Service<N>,
    work: &Work,
    calls: Calls,
    mut passes: Passes,
) -> u64
    requires team { IsTeam work.now service.now }
    requires few { work.now.threads ≤ 15 }
    requires client { IsClient N.name service.now passes }
{
    let mut taken: u64 = 0;
    let thread = passes.actor();
    let place = work.place(thread);
    for call in 0..work.calls {
        let i = calls.callout(thread, call);
        let cpu = calls.cpu(place, call);
        let reset = PlainOp::Reset {
            due: Sbt::from_ticks(1, 1),
            prec: Sbt::zero(),
            func: 0,
            arg: 0,
            cpu: Some(cpu),
        };
        ask(rt, service, work, calls, &mut passes, call, i, reset);
        let reply = ask(
            rt,
            service,
            work,
            calls,
            &mut passes,
            call,
            i,
            PlainOp::Stop,
        );
        if matches!(reply, Reply::Stopped { code: 1, .. }) {
            taken = taken.saturating_add(1);
        }
    }
    drop(passes);
    taken
}

/// The clients' passes, of those of all actors.
fn clients_of(passes: Seq<Passes>, clients: u32) -> Vec<Passes>
    ensures { (name : ServiceName) (p : Params) → AreBooted name p passes → p.clients ≡ clients → All (IsClient name p) result.items }
{
    let mut all = passes.into_vec();
    all.truncate(clients as usize);
    all
}

/// Lets a thread for each of these passes call the service: how many stops took an arming away. `NoMemory` where there is no
/// room for what the threads answer.
fn hammer_all<N: Name + Send + Sync, R: Threads + Wait + Sync>(
    rt: &R,
    service: &Service<N>,
    work: &Work,
    calls: Calls,
    clients: Vec<Passes>,
) -> Result<u64, NoMemory>
    requires team { IsTeam work.now service.now }
    requires few { work.now.threads ≤ 15 }
    requires clients { All (IsClient N.name service.now) clients.items }
{
    let one = |passes: Passes| -> u64
        requires { IsTeam work.now service.now × (work.now.threads ≤ 15) × IsClient N.name service.now passes }
    { hammer(rt, service, work, calls, passes) };
    match map_vec(rt, clients, &one) {
        Ok(counts) => Ok(sum(counts.as_slice())),
        Err(_) => Err(NoMemory {}),
    }
}

/// The sum of these counts.
fn sum(counts: &[u64]) -> u64 {
    let mut all: u64 = 0;
    for count in counts {
        all = all.saturating_add(*count);
    }
    all
}

/// Opens the service and lets the threads call it.
fn run_open<N: Name + Send + Sync, R: Threads + Wait + Sync>(
    rt: &R,
    alloc: Global,
    work: &Work,
    calls: Calls,
    fresh: Fresh,
    passes: Seq<Passes>,
) -> Result<u64, NoMemory>
    requires name { fresh.name ≡ N.name }
    requires team { IsTeam work.now fresh.params }
    requires few { work.now.threads ≤ 15 }
    requires passes { AreBooted fresh.name fresh.params passes }
{
    let clients = clients_of(passes, work.threads);
    match Service::<N>::open(alloc, fresh) {
        Ok(service) => hammer_all(rt, &service, work, calls, clients),
        Err(failed) => Err(failed),
    }
}

/// Boots a service with a CPU for each thread and one more, and lets the threads call it. The answer is how many stops took an
/// arming away. `NoMemory` where there is no room for the service.
pub fn run<R: Threads + Wait + Sync>(
    rt: &R,
    alloc: Global,
    work: &Work,
    calls: Calls,
) -> Result<u64, NoMemory>
    requires threads { (1 ≤ work.now.threads) × (work.now.threads ≤ 15) }
{
    let (fresh, passes) = boot_team(alloc, work)?;
    run_open::<Brand, R>(rt, alloc, work, calls, fresh, passes)
}
