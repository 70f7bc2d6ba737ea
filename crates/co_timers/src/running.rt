//! The functions that a CPU runs in its services, each through a port.
ghost use Rattle.std.specs.Prelude.{◌≡◌, ◌<◌, IfSome, length};
ghost use Rattle.std.specs.declared.option.Option.TheVariants.{None, Some};
ghost use Rattle.co_hand.specs.Handlers.{HasRun, Serves};
ghost use Rattle.co_lock.specs.Service.{hold_of};
ghost use Rattle.co_desk.specs.Params.{spec_at};
ghost use Rattle.co_timers.specs.Handles.{IsHandle};
ghost use Rattle.co_timers.specs.Ports.{handle_of};
ghost use Rattle.co_timers.specs.Rounds.{AreNeedsOf, DrainsIf, RunsIf, hold_in, unless_released};

use crate::Timers;
use crate::lane::Lane;
use crate::port::CpuPort;
use co_hand::{Fire, Handler, Port};
use co_lock::Hold;
use co_service::Name;
use std::sync::Wait;

/// Runs the function of the service. `unlocked` is whether the hold, where there is one, is released first.
fn hand_over<P: Port, H: Handler>(
    handler: &mut H,
    fire: &Fire,
    hold: Option<Hold<'_>>,
    unlocked: bool,
    port: &mut P,
)
    requires { Serves (H.needs handler.old) (P.state port.old) fire.now fire.now.func }
    ensures port { HasRun H.runs handler.old fire.now None (unless_released unlocked hold.entry) ((H.needs handler.old).calls fire.now.func) (P.state port.old) (P.state port.new) handler.new }
    ensures needs { H.needs handler.new ≡ H.needs handler.old }
{
    match hold {
        Some(mut hold) => {
            if unlocked {
                handler.run_unlock(fire, hold, port)
            } else {
                handler.run(fire, Some(&mut hold), port)
            }
        }
        None => handler.run(fire, None, port),
    }
}

/// The actor after the acts of callout `i`'s function, where one is called, which begins under this hold of the callout's lock.
pub(crate) fn run_if<'a, N: Name, R: Wait, H: Handler>(
    rt: &'a R,
    timers: &'a Timers<N>,
    lane: Lane,
    i: u32,
    fire: &Option<Fire>,
    hold: Option<Hold<'_>>,
    handler: &mut H,
) -> Lane
    requires handle { IsHandle N.name timers.now.params lane.passes }
    requires needs { AreNeedsOf (H.needs handler.old) timers.now.params }
    requires callout { i < length timers.now.params.specs }
    requires fire { IfSome fire.now (λ f. (f.i ≡ i) × (f.cpu < timers.now.params.cpus)) }
    requires hold { hold ≡ hold_of (spec_at timers.now.params i).lock }
    ensures runs { RunsIf (H.needs handler.old) H.runs handler.old fire.now (hold_in (spec_at timers.now.params i)) (handle_of lane) handler.new (handle_of result) }
    ensures needs { H.needs handler.new ≡ H.needs handler.old }
{
    match fire {
        Some(fire) => {
            let unlocked = timers.spec(fire.i).returns_unlocked;
            let mut port = CpuPort::new(rt, timers, lane, &*handler, fire.func);
            hand_over(handler, fire, hold, unlocked, &mut port);
            port.into_lane()
        }
        None => lane,
    }
}

/// The actor after the acts of the function of the drain that awaited the end, if one did.
pub(crate) fn drained_if<'a, N: Name, R: Wait, H: Handler>(
    rt: &'a R,
    timers: &'a Timers<N>,
    lane: Lane,
    fire: &Fire,
    drain: Option<u32>,
    handler: &mut H,
) -> Lane
    requires handle { IsHandle N.name timers.now.params lane.passes }
    requires needs { AreNeedsOf (H.needs handler.old) timers.now.params }
    requires callout { fire.now.i < length timers.now.params.specs }
    requires cpu { fire.now.cpu < timers.now.params.cpus }
    ensures runs { DrainsIf (H.needs handler.old) H.runs handler.old (λ _. fire.now) drain (handle_of lane) handler.new (handle_of result) }
    ensures needs { H.needs handler.new ≡ H.needs handler.old }
{
    match drain {
        Some(func) => {
            let mut port = CpuPort::new(rt, timers, lane, &*handler, func);
            handler.drained(fire, func, &mut port);
            port.into_lane()
        }
        None => lane,
    }
}
