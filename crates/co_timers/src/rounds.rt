//! The rounds of a turn: one for each callout that has come due.
ghost use Rattle.std.specs.Prelude.{◌≡◌, ◌<◌, is_some, true, unwrap_or};
ghost use Rattle.co_desk.specs.Serving.{stage_picked};
ghost use Rattle.co_timers.specs.Ports.{handle_of};
ghost use Rattle.co_timers.specs.Rounds.{IsAbout, IsAtEase, AreNeedsOf, IsLaneServed, IsLaneService, MayBeServed, counted_where, fire_after, fire_of, served_after};

use crate::Timers;
use crate::lane::Lane;
use crate::running::{drained_if, run_if};
use crate::serving::{called_by, drain_of};
use crate::turned::{Round, Served};
use co_hand::{Fire, Handler};
use co_object::Reply;
use co_sbt::Sbt;
use co_service::{Name, Taken};
use std::sync::Wait;

/// What was taken into service.
#[derive(Clone, Copy)]
pub(crate) struct Picked {
    /// The callout.
    i: u32,
    /// The number of its arming.
    n: u64,
    /// The time of the last scan.
    at: Sbt,
    /// The reply to the Pick.
    reply: Reply,
}

/// What the function is told, where one is called.
fn fire_of(taken: &Picked, cpu: u32, call: Option<(u32, u64)>) -> Option<Fire>
    ensures { result ≡ fire_of (record { i = taken.now.i; n = taken.now.n }) cpu taken.now.at call }
{
    let (func, arg) = call?;
    Some(Fire {
        i: taken.i,
        n: taken.n,
        func,
        arg,
        cpu,
        at: taken.at,
    })
}

/// What the function `func` of a drain is told. Where the callout's own function was skipped, it is the one that is named, with argument 0.
fn fire_after(taken: &Picked, cpu: u32, call: Option<(u32, u64)>, drain: Option<u32>) -> Fire
    ensures { result ≡ fire_after (record { i = taken.now.i; n = taken.now.n }) cpu taken.now.at call (unwrap_or drain 0) }
{
    let (func, arg) = match call {
        Some(call) => call,
        None => (drain.unwrap_or(0), 0),
    };
    Fire {
        i: taken.i,
        n: taken.n,
        func,
        arg,
        cpu,
        at: taken.at,
    }
}

/// Counts one more, up to 2^64 - 1.
fn count(more: bool, so_far: u64) -> u64
    ensures { result ≡ counted_where more so_far }
{
    if more {
        so_far.saturating_add(1)
    } else {
        so_far
    }
}

/// The counts after one more round.
fn served_after(served: Served, one: Round) -> Served
    ensures { result ≡ served_after served one }
{
    Served {
        called: count(one.called, served.called),
        skipped: count(!one.called, served.skipped),
        drained: count(one.drained, served.drained),
    }
}

/// Serves what was taken, from the lock to the function of a drain that awaited the end.
fn serve<'a, N: Name, R: Wait + Sync, H: Handler>(
    rt: &'a R,
    timers: &'a Timers<N>,
    cpu: u32,
    act: u64,
    direct: bool,
    lane: Lane,
    taken: &Picked,
    handler: &mut H,
) -> (Lane, Round)
    requires about { IsAbout N.name timers.now.params direct cpu (record { i = taken.now.i; n = taken.now.n }) (stage_picked taken.now.n taken.now.reply) lane.passes }
    requires may { MayBeServed direct timers.now.params taken.now.i taken.now.reply }
    requires needs { AreNeedsOf (H.needs handler.old) timers.now.params }
    ensures service { IsLaneService (H.needs handler.old) H.runs direct cpu act (record { i = taken.now.i; n = taken.now.n }) taken.now.at taken.now.reply handler.old (handle_of lane) result.1 handler.new (handle_of result.0) }
    ensures at_ease { IsAtEase N.name timers.now.params direct cpu result.0.passes }
    ensures needs { H.needs handler.new ≡ H.needs handler.old }
{
    let mut begun = lane;
    let (i, n) = (taken.i, taken.n);
    let (said, hold) = timers.begin_lane(
        rt,
        &mut begun.passes,
        cpu,
        act,
        direct,
        i,
        n,
        taken.reply,
    );
    let call = called_by(&said);
    let fire = fire_of(taken, cpu, call);
    let mut ran = run_if(rt, timers, begun, i, &fire, hold, handler);
    let made = timers.finish(rt, &mut ran.passes, cpu, act, direct, i, n);
    let drain = drain_of(&made.reply);
    let after = fire_after(taken, cpu, call, drain);
    let over = drained_if(rt, timers, ran, &after, drain, handler);
    let one = Round {
        called: call.is_some(),
        drained: drain.is_some(),
    };
    (over, one)
}

/// All that has come due for the CPU, or for its interrupt where `direct`, is served, until nothing is left. It waits until the CPU's journal has so
/// many Scans.
pub(crate) fn serve_all<'a, N: Name, R: Wait + Sync, H: Handler>(
    rt: &'a R,
    timers: &'a Timers<N>,
    cpu: u32,
    act: u64,
    scans: u64,
    direct: bool,
    lane: Lane,
    handler: &mut H,
) -> (Lane, Served)
    requires at_ease { IsAtEase N.name timers.now.params direct cpu lane.passes }
    requires needs { AreNeedsOf (H.needs handler.old) timers.now.params }
    requires none { direct ≡ true → scans ≡ 0 }
    ensures served { IsLaneServed (H.needs handler.old) H.runs direct cpu act scans handler.old (handle_of lane) result.1 handler.new (handle_of result.0) }
    ensures at_ease { IsAtEase N.name timers.now.params direct cpu result.0.passes }
    ensures needs { H.needs handler.new ≡ H.needs handler.old }
{
    let mut here = lane;
    let mut served = Served {
        called: 0,
        skipped: 0,
        drained: 0,
    };
    for _ in rt.forever() {
        match timers.take(rt, &mut here.passes, cpu, act, scans, direct) {
            Taken::Empty { .. } => return (here, served),
            Taken::Took {
                i,
                n,
                at,
                reply,
                ..
            } => {
                let taken = Picked { i, n, at, reply };
                let (next, one) = serve(rt, timers, cpu, act, direct, here, &taken, handler);
                here = next;
                served = served_after(served, one);
            }
        }
    }
    unreachable!()
}
