//! A client's calls, with what they have to be answered.
use super::stage::seconds;
use co_hand::Fire;
use co_lock::Hold;
use co_object::{PlainOp, Reply};
use co_sbt::Sbt;
use co_service::Name;
use co_timers::{AsyncDrained, Client, Drained, Refused, Reset, Stopped};
use std::sync::Wait;

/// A call on a callout, and its answer. Times are whole seconds.
pub(super) enum Step {
    /// Arms it with this function and argument 7, on a CPU, or where it is.
    Arm(u32, i32, u32, Option<u32>, Result<Reset, Refused>),
    Schedule(u32, i32, Result<Reset, Refused>),
    Stop(u32, Result<Stopped, Refused>),
    /// From within the function of a service, where there is one.
    Drain(u32, Result<Drained, Refused>),
    /// With function 1.
    AsyncDrain(u32, Result<AsyncDrained, Refused>),
    /// It is done.
    Retire(u32),
}

/// Whether the call is answered so, under this hold and in the function of this service.
fn is_answered<N: Name, R: Wait>(
    rt: &R,
    client: &mut Client<'_, N>,
    hold: Option<&Hold<'_>>,
    service: Option<&Fire>,
    step: &Step,
) -> bool {
    let zero = Sbt::zero();
    match step {
        Step::Arm(i, at, func, cpu, wanted) => {
            client.reset(rt, *i, seconds(*at), zero, *func, 7, *cpu, hold) == *wanted
        }
        Step::Schedule(i, at, wanted) => {
            client.schedule(rt, *i, seconds(*at), zero, None, hold) == *wanted
        }
        Step::Stop(i, wanted) => client.stop(rt, *i, hold) == *wanted,
        Step::Drain(i, wanted) => match service {
            Some(fire) => client.drain_within(rt, *i, fire, hold) == *wanted,
            None => client.drain(rt, *i, hold) == *wanted,
        },
        Step::AsyncDrain(i, wanted) => client.async_drain(rt, *i, 1, hold) == *wanted,
        Step::Retire(i) => client.call(rt, *i, &PlainOp::Retire, hold) == Ok(Reply::Done),
    }
}

/// The first step that is not answered as it has to be, if any is.
pub(super) fn wrong_step<N: Name, R: Wait>(
    rt: &R,
    client: &mut Client<'_, N>,
    hold: Option<&Hold<'_>>,
    service: Option<&Fire>,
    steps: &[Step],
) -> Option<usize> {
    for (number, step) in steps.iter().enumerate() {
        if !is_answered(rt, client, hold, service, step) {
            return Some(number);
        }
    }
    None
}
