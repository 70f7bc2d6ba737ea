//! A client and two CPUs, one after another.
ghost use Rattle.std.specs.Prelude.{◌≡◌};
ghost use Rattle.service_cases.specs.Timers.{scene};

use super::functions::{ASKS, Functions, NOTHING, Seen};
use super::stage::{ARMED, boot, open, seconds};
use super::steps::{Step, wrong_step};
use co_hand::PortReply;
use co_object::Reply;
use co_service::Name;
use co_timers::{
    AsyncDrained, Client, Cpu, Drained, Refused, Reset, Served, Stopped, Timers, TimersFresh,
    Turned,
};
use std::alloc::Global;
use std::marker::Brand;
use std::process::Abort;
use std::sync::Wait;

/// What is done next.
enum Row {
    /// Calls of the client without a lock, and with that of callout 1.
    Free(&'static [Step]),
    Held(&'static [Step]),
    /// A CPU's turn at a time in seconds, and what it does.
    Turn(u32, i32, Turned),
}

/// What is done, how many functions were called at the end, and under how many holds, and whether one has asked.
struct Scene {
    name: &'static str,
    rows: &'static [Row],
    called: u64,
    held: u64,
    asks: bool,
}

const NO_CALLS: Served = Served {
    called: 0,
    skipped: 0,
    drained: 0,
};

const ONE_CALL: Served = Served {
    called: 1,
    ..NO_CALLS
};

/// Nothing comes due.
const NONE: Turned = Turned {
    scanned: 0,
    direct: NO_CALLS,
    others: NO_CALLS,
};

/// One comes due, which the CPU serves.
const ONE: Turned = Turned {
    scanned: 1,
    direct: NO_CALLS,
    others: ONE_CALL,
};

/// One of each lane.
const BOTH: Turned = Turned {
    scanned: 2,
    direct: ONE_CALL,
    others: ONE_CALL,
};

/// One whose function begins a drain.
const DRAINED: Turned = Turned {
    scanned: 1,
    direct: NO_CALLS,
    others: Served {
        called: 1,
        skipped: 0,
        drained: 1,
    },
};

static SCENES: [Scene; 3] = [
    Scene {
        name: "a client alone",
        rows: &[
            // Without a lock, and with that of callout 1.
            Row::Free(&[
                Step::Arm(3, 1, 0, None, Err(Refused::NoCallout)),
                Step::Arm(0, 1, 0, Some(2), Err(Refused::NoCpu)),
                Step::Arm(1, 1, 0, None, Err(Refused::NotHeld)),
                Step::Stop(1, Err(Refused::NotHeld)),
                // Callout 0 is armed, armed again, stopped twice, and armed once more.
                Step::Schedule(0, 3, Ok(Reset::NoHandler)),
                Step::Arm(0, 3, 0, None, ARMED),
                Step::Arm(0, 4, 0, None, Ok(Reset::Armed { replaced: true })),
                Step::Stop(0, Ok(Stopped::Cancelled)),
                Step::Stop(0, Ok(Stopped::Nothing)),
                Step::Schedule(0, 5, ARMED),
                // It is drained in both ways.
                Step::Drain(0, Ok(Drained::Cancelled)),
                Step::Drain(0, Ok(Drained::Nothing)),
                Step::AsyncDrain(0, Ok(AsyncDrained::Nothing)),
                Step::Arm(0, 3, 0, None, ARMED),
                Step::AsyncDrain(0, Ok(AsyncDrained::Cancelled)),
                // It is out of use.
                Step::Retire(0),
                Step::Arm(0, 3, 0, None, Ok(Reset::Retired)),
                Step::Stop(0, Ok(Stopped::Retired)),
                Step::AsyncDrain(0, Ok(AsyncDrained::Retired)),
            ]),
            Row::Held(&[
                Step::Arm(1, 1, 0, None, ARMED),
                Step::Drain(1, Err(Refused::HoldsLock)),
                Step::Stop(1, Ok(Stopped::Cancelled)),
            ]),
        ],
        called: 0,
        held: 0,
        asks: false,
    },
    // Each callout that comes due is called once, in its lane, and for another CPU there.
    Scene {
        name: "each that comes due is called once",
        rows: &[
            Row::Free(&[
                Step::Arm(0, 1, 0, None, ARMED),
                Step::Arm(2, 1, 0, None, ARMED),
            ]),
            Row::Held(&[Step::Arm(1, 2, 0, None, ARMED)]),
            Row::Turn(0, 1, BOTH),
            Row::Turn(0, 1, NONE),
            Row::Turn(0, 2, ONE),
            Row::Free(&[Step::Arm(0, 3, 0, Some(1), ARMED)]),
            Row::Turn(1, 3, ONE),
        ],
        called: 4,
        held: 1,
        asks: false,
    },
    // The function of callout 0 runs, and then that of the drain which it began.
    Scene {
        name: "a function asks of its own callout",
        rows: &[
            Row::Free(&[Step::Arm(0, 1, ASKS, None, ARMED)]),
            Row::Turn(0, 1, DRAINED),
        ],
        called: 1,
        held: 0,
        asks: true,
    },
];

/// Who plays: a client, both CPUs, and the functions with another client.
#[derive(Drop)]
struct Cast<'r, 'a, N: Name, R: Wait> {
    client: Client<'a, N>,
    first: Cpu<'a, N>,
    second: Cpu<'a, N>,
    functions: Functions<'r, 'a, N, R>,
}

impl<'r, 'a, N: Name, R: Wait + Sync> Cast<'r, 'a, N, R> {
    /// Whether a row is as it has to be.
    fn is_right(&mut self, rt: &R, timers: &Timers<N>, row: &Row) -> bool
        requires first { self.old.first.others.passes.params ≡ scene }
        requires second { self.old.second.others.passes.params ≡ scene }
        ensures first { self.new.first.others.passes.params ≡ scene }
        ensures second { self.new.second.others.passes.params ≡ scene }
    {
        match row {
            Row::Free(steps) => wrong_step(rt, &mut self.client, None, None, steps).is_none(),
            Row::Held(steps) => match timers.lock(rt, 0) {
                Some(hold) => wrong_step(rt, &mut self.client, Some(&hold), None, steps).is_none(),
                None => false,
            },
            Row::Turn(cpu, at, wanted) => {
                let at = seconds(*at);
                let turned = if *cpu == 0 {
                    self.first.turn(rt, at, &mut self.functions)
                } else {
                    self.second.turn(rt, at, &mut self.functions)
                };
                turned == *wanted
            }
        }
    }

    /// The first row that is not as it has to be, if any is, and what the functions have seen by then.
    fn wrong_row(&mut self, rt: &R, timers: &Timers<N>, rows: &[Row]) -> (Option<usize>, Seen)
        requires first { self.old.first.others.passes.params ≡ scene }
        requires second { self.old.second.others.passes.params ≡ scene }
    {
        for (number, row) in rows.iter().enumerate() {
            if !self.is_right(rt, timers, row) {
                return (Some(number), self.functions.seen);
            }
        }
        (None, self.functions.seen)
    }
}

/// The first row of a scene that is not as it has to be, if any is, on a service that is opened for it, and what the functions have seen.
fn play<N: Name, R: Wait + Sync + Abort>(
    rt: &R,
    alloc: Global,
    fresh: TimersFresh,
    rows: &[Row],
) -> (Option<usize>, Seen)
    requires name { fresh.name ≡ N.name }
    requires scene { fresh.params ≡ scene }
{
    let (timers, mut posts) = open::<N, R>(rt, alloc, fresh);
    let functions = Functions {
        rt,
        client: posts.client(&timers, 1).expect(rt, "client 1 is here"),
        seen: NOTHING,
    };
    let mut cast = Cast {
        client: posts.client(&timers, 0).expect(rt, "client 0 is here"),
        first: posts.cpu_handle(&timers, 0).expect(rt, "CPU 0 is here"),
        second: posts.cpu_handle(&timers, 1).expect(rt, "CPU 1 is here"),
        functions,
    };
    let story = cast.wrong_row(rt, &timers, rows);
    drop(cast);
    drop((timers, posts));
    story
}

/// What the functions have to have seen at the end. Who asks is answered right, and begins a drain, whose function finds nothing
/// pending.
fn wanted(scene: &Scene) -> Seen {
    let mut seen = NOTHING;
    seen.called = scene.called;
    seen.held = scene.held;
    if scene.asks {
        seen.drained = Some(1);
        seen.asked = Some(None);
        seen.said = Some(PortReply::Reply(Reply::No));
    }
    seen
}

/// The first row of a scene that is not as it has to be, if any is, or their number where the functions have seen something else.
fn first_wrong<R: Wait + Sync + Abort>(rt: &R, alloc: Global, scene: &Scene) -> Option<usize> {
    let fresh = boot(rt, alloc);
    let (wrong, seen) = play::<Brand, R>(rt, alloc, fresh, scene.rows);
    if wrong.is_none() && seen != wanted(scene) {
        return Some(scene.rows.len());
    }
    wrong
}

/// Each word of a client and each refusal by name; the turns of CPUs in both lanes; a function with a client's handle.
#[test]
fn scenes(rt: HostRuntime) {
    for scene in &SCENES {
        if let Some(row) = first_wrong(&rt, rt.alloc(), scene) {
            panic!(rt; "{}: row {row}", scene.name);
        }
    }
}
