//! The functions of callouts. Function 0 counts, and function 2 asks about its own callout by a client's handle.
ghost use Rattle.std.specs.Prelude.{◌≡◌};

use super::steps::{Step, wrong_step};
use co_hand::{Fire, Handler, Port, PortReply};
use co_lock::Hold;
use co_object::PlainOp;
use co_service::Name;
use co_timers::{AsyncDrained, Client, Drained, Refused, Reset, Stopped};
use std::sync::Wait;

/// The number of the function that asks.
pub(super) const ASKS: u32 = 2;

/// What the functions have seen.
#[derive(Clone, Copy, PartialEq)]
pub(super) struct Seen {
    /// How many functions were called, and under how many holds.
    pub called: u64,
    pub held: u64,
    /// The function of the last drain that was.
    pub drained: Option<u32>,
    /// Where function 2 was called: the first step that was not answered as it has to be, if any was.
    pub asked: Option<Option<usize>>,
    /// What the port answered it.
    pub said: Option<PortReply>,
}

/// Nothing was called yet.
pub(super) const NOTHING: Seen = Seen {
    called: 0,
    held: 0,
    drained: None,
    asked: None,
    said: None,
};

/// Functions with a client's handle.
#[derive(Drop)]
pub(super) struct Functions<'r, 'a, N: Name, R: Wait> {
    pub rt: &'r R,
    pub client: Client<'a, N>,
    pub seen: Seen,
}

/// In the service of callout 0: it is in service, an asynchronous drain awaits its end, and another callout is drained at once.
static IN_SERVICE: [Step; 6] = [
    Step::Stop(0, Ok(Stopped::Running)),
    Step::AsyncDrain(0, Ok(AsyncDrained::Begun)),
    Step::AsyncDrain(0, Ok(AsyncDrained::Busy)),
    Step::Arm(0, 3, 0, None, Ok(Reset::Draining { cancelled: false })),
    Step::Drain(0, Err(Refused::DrainsItself)),
    Step::Drain(2, Ok(Drained::Nothing)),
];

impl<'r, 'a, N: Name, R: Wait> Functions<'r, 'a, N, R> {
    /// A function is called.
    fn call(&mut self, fire: &Fire)
        ensures { self.new.seen.drained ≡ self.old.seen.drained }
    {
        self.seen.called = self.seen.called.wrapping_add(1);
        if fire.func == ASKS {
            let wrong = wrong_step(self.rt, &mut self.client, None, Some(fire), &IN_SERVICE);
            self.seen.asked = Some(wrong);
        }
    }
}

impl<'r, 'a, N: Name, R: Wait> Handler for Functions<'r, 'a, N, R> {
    ghost use Rattle.service_cases.specs.Timers.{scene_needs, MakesOneCall};

    ghost needs = { λ _. scene_needs };

    ghost runs = { λ before fire drain hold calls after. MakesOneCall drain calls before.seen.drained after.seen.drained };

    fn run<P: Port>(&mut self, fire: &Fire, hold: Option<&mut Hold<'_>>, port: &mut P) {
        self.call(fire);
        match hold {
            Some(hold) => {
                self.seen.held = self.seen.held.wrapping_add(1);
                port.call(fire.i, &PlainOp::Active, Some(hold))
            }
            None => {
                if fire.func == ASKS {
                    port.call(fire.i, &PlainOp::Stop, None)
                } else {
                    port.call(fire.i, &PlainOp::Active, None)
                }
            }
        };
    }

    fn run_unlock<P: Port>(&mut self, fire: &Fire, hold: Hold<'_>, port: &mut P) {
        drop(hold);
        self.call(fire);
        port.call(fire.i, &PlainOp::Stop, None);
    }

    fn drained<P: Port>(&mut self, fire: &Fire, func: u32, port: &mut P) {
        self.seen.drained = Some(func);
        self.seen.said = Some(port.call(fire.i, &PlainOp::Pending, None));
    }
}
