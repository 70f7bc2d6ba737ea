//! The port through which a function makes its calls, as an actor of the CPU that runs it.
ghost use Rattle.std.specs.Prelude.{◌≡◌, [], ◌-◌, length};
ghost use Rattle.co_timers.specs.Handles.{IsHandle};
ghost use Rattle.co_timers.specs.Ports.{AreCalls, handle_of};

use crate::Timers;
use crate::lane::Lane;
use crate::log::Log;
use co_hand::{Handler, Port, PortCall, PortReply};
use co_life::Shown;
use co_lock::Hold;
use co_object::{Next, PlainOp, Reply};
use co_service::Name;
use std::marker::Model;
use std::sync::Wait;

/// A port for the function of this number. Each call that is made is one act of the actor, and one call of the service. It takes as many
/// calls as the handler ever makes for the function, and no memory.
#[derive(Drop)]
pub struct CpuPort<'a, N: Name, R: Wait, H: Handler> {
    rt: &'a R,
    timers: &'a Timers<N>,
    lane: Lane,
    /// The actor as it was when the function began.
    start: Shown<Lane>,
    calls: Log<PortCall>,
    handler: Shown<H>,
    func: u32,
}

impl<'a, N: Name, R: Wait, H: Handler> Model for CpuPort<'a, N, R, H> {
    ghost use Rattle.co_timers.specs.Ports.{IsPort, PortView, handle_of};

    ghost Value = { PortView };

    ghost view = { λ p. record { specs = p.timers.now.params.specs; cpus = p.timers.now.params.cpus; start = handle_of p.start.value; calls = p.calls.items; here = handle_of p.lane; most = (H.needs p.handler.value).calls p.func } };

    ghost invariant = { λ p. IsPort N.name p.timers.now.params (handle_of p.start.value) p.calls.items (handle_of p.lane) };
}

/// The call of which this is the answer.
fn call_of(i: u32, op: &PlainOp, answer: &PortReply) -> PortCall
    ensures { result ≡ record { i = i; op = op.now; answer = answer.now } }
{
    PortCall {
        i,
        op: *op,
        answer: *answer,
    }
}

impl<'a, N: Name, R: Wait, H: Handler> CpuPort<'a, N, R, H> {
    /// A port before the first call.
    pub(crate) fn new(
        rt: &'a R,
        timers: &'a Timers<N>,
        lane: Lane,
        handler: &H,
        func: u32,
    ) -> CpuPort<'a, N, R, H>
        requires { IsHandle N.name timers.now.params lane.passes }
        ensures { result ≡ record { specs = timers.now.params.specs; cpus = timers.now.params.cpus; start = handle_of lane; calls = []; here = handle_of lane; most = (H.needs handler.now).calls func } }
    {
        let start = Shown::of(&lane);
        CpuPort {
            rt,
            timers,
            lane,
            start,
            calls: Log::new(),
            handler: Shown::of(handler),
            func,
        }
    }

    /// The actor after the calls.
    pub(crate) fn into_lane(self) -> Lane
        ensures { AreCalls self.entry.start self.entry.calls (handle_of result) }
    {
        self.lane
    }
}

impl<'a, N: Name, R: Wait, H: Handler> Port for CpuPort<'a, N, R, H> {
    ghost use Rattle.std.specs.Prelude.{◌-◌, length};

    type Origin = Lane;

    ghost state = { λ p. record { specs = p.specs; cpus = p.cpus; origin = record { passes = p.start.passes; act = p.start.act }; made = p.calls; room = p.most - length p.calls } };

    fn call(&mut self, i: u32, op: &PlainOp, hold: Option<&Hold<'_>>) -> PortReply {
        let _next: Option<Next> = None;
        let _reply: Option<Reply> = None;
        let answer = self.lane.ask(self.rt, self.timers, i, op, hold);
        let call = call_of(i, op, &answer);
        self.calls = self.calls.and(&call);
        answer
    }
}
