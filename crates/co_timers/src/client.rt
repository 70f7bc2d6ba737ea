//! A client's handle.
ghost use Rattle.std.specs.Prelude.{◌≡◌, is_some, true};
ghost use Rattle.std.specs.Option.{option_copied};
ghost use Rattle.std.specs.declared.option.Option.TheVariants.{Some};
ghost use Rattle.co_object.specs.declared.op.CallOp.TheVariants.{Plain};
ghost use Rattle.co_object.specs.declared.op.PlainOp.TheVariants.{AsyncDrain, Reset as ResetOp, Schedule, Stop};
ghost use Rattle.co_timers.specs.Handles.{IsHandle};
ghost use Rattle.co_timers.specs.Answers.{IsSaid, async_word, reset_word, stop_word};
ghost use Rattle.co_timers.specs.Drains.{IsDrained, IsDrainedWithin};

use crate::timers::held_of;
use crate::{AsyncDrained, Drained, Refused, Reset, Stopped, Timers};
use co_hand::Fire;
use co_lock::Hold;
use co_object::{CallOp, PlainOp, Reply};
use co_sbt::Sbt;
use co_service::{Name, Passes};
use std::marker::Model;
use std::sync::Wait;

/// A client's handle: its passes and the number of its next act, which no caller has to keep. It goes into the client's
/// thread. Acts are counted from 0; after 2^64 - 1 acts, which take 584 years at one a nanosecond, all have the last number.
///
/// Contracts see what the client has seen of each callout and of each CPU, and the number of its next act.
#[derive(Drop)]
pub struct Client<'a, N: Name> {
    timers: &'a Timers<N>,
    pub(crate) passes: Passes,
    act: u64,
}

impl<'a, N: Name> Model for Client<'a, N> {
    ghost use Rattle.co_timers.specs.Handles.{HandleView, IsHandle};

    ghost Value = { HandleView };

    ghost view = { λ c. record { passes = c.passes; act = c.act } };

    ghost invariant = { λ c. IsHandle N.name c.timers.now.params c.passes };
}

/// The word for the reply to a reset or a schedule.
fn reset_word(reply: &Reply) -> Reset
    requires { is_some (reset_word reply.now) ≡ true }
    ensures { reset_word reply.now ≡ Some result }
{
    match *reply {
        Reply::Armed { code, .. } => Reset::Armed {
            replaced: code == 1,
        },
        Reply::NotArmed { code } => Reset::Draining {
            cancelled: code == 1,
        },
        Reply::NoHandler => Reset::NoHandler,
        Reply::Worn => Reset::Worn,
        Reply::Retired => Reset::Retired,
        _ => unreachable!(),
    }
}

/// The word for the reply to a stop.
fn stop_word(reply: &Reply) -> Stopped
    requires { is_some (stop_word reply.now) ≡ true }
    ensures { stop_word reply.now ≡ Some result }
{
    match *reply {
        Reply::Stopped { code: 0, .. } => Stopped::Running,
        Reply::Stopped { code, .. } => {
            if code > 0 {
                Stopped::Cancelled
            } else {
                Stopped::Nothing
            }
        }
        Reply::Retired => Stopped::Retired,
        _ => unreachable!(),
    }
}

/// The word for the reply to an asynchronous drain.
fn async_word(reply: &Reply) -> AsyncDrained
    requires { is_some (async_word reply.now) ≡ true }
    ensures { async_word reply.now ≡ Some result }
{
    match *reply {
        Reply::Stopped { code: 0, .. } => AsyncDrained::Begun,
        Reply::Stopped { code, .. } => {
            if code > 0 {
                AsyncDrained::Cancelled
            } else {
                AsyncDrained::Nothing
            }
        }
        Reply::Busy => AsyncDrained::Busy,
        Reply::Retired => AsyncDrained::Retired,
        _ => unreachable!(),
    }
}

impl<'a, N: Name> Client<'a, N> {
    /// The handle of an actor that has these passes, before its first act.
    pub(crate) fn new(timers: &'a Timers<N>, passes: Passes) -> Client<'a, N>
        requires { IsHandle N.name timers.now.params passes }
        ensures { result ≡ record { passes = passes; act = 0 } }
    {
        Client {
            timers,
            passes,
            act: 0,
        }
    }

    /// A call on callout `i`, with the callout's reply. `hold` is the client lock that the caller holds, if it holds
    /// one. Refused as the call of that name is: then nothing has changed, and no act is used up.
    ///
    /// The reply is that of the callout alone after what the client has seen of it and what others did since.
    pub fn call<R: Wait>(
        &mut self,
        rt: &R,
        i: u32,
        op: &PlainOp,
        hold: Option<&Hold<'_>>,
    ) -> Result<Reply, Refused>
        ensures answer { IsSaid Some self.old (option_copied hold.entry) i (Plain op.now) result self.new }
        ensures params { self.new.passes.params ≡ self.old.passes.params }
    {
        let op = CallOp::Plain(*op);
        match self.timers.refusal(held_of(hold), i, &op) {
            Some(why) => Err(why),
            None => {
                let reply = self
                    .timers
                    .make(rt, &mut self.passes, self.act, i, &op, hold);
                self.act = self.act.saturating_add(1);
                Ok(reply)
            }
        }
    }

    /// Arms callout `i` for the time `due`, as `callout_reset_sbt_on`: then `func` is called with `arg`, on `cpu`, or
    /// on the CPU of its last arming where none is given. `due` and the precision `prec`, which changes nothing here,
    /// are in units of 2^-32 s.
    ///
    /// Refused with `NoCallout` or `NoCpu` where there is none of that number, and `NotHeld` where the callout has a
    /// lock and `hold` is not of it, in either mode (our own decision).
    pub fn reset<R: Wait>(
        &mut self,
        rt: &R,
        i: u32,
        due: Sbt,
        prec: Sbt,
        func: u32,
        arg: u64,
        cpu: Option<u32>,
        hold: Option<&Hold<'_>>,
    ) -> Result<Reset, Refused>
        ensures answer { IsSaid reset_word self.old (option_copied hold.entry) i (Plain (ResetOp due prec func arg cpu)) result self.new }
        ensures params { self.new.passes.params ≡ self.old.passes.params }
    {
        let op = PlainOp::Reset {
            due,
            prec,
            func,
            arg,
            cpu,
        };
        let reply = self.call(rt, i, &op, hold)?;
        Ok(reset_word(&reply))
    }

    /// Arms callout `i` again with the function and argument of its last arming, as `callout_schedule_sbt_on`, for the
    /// time `due` with the precision `prec`, both in units of 2^-32 s, and else as [`Client::reset`]. `NoHandler`
    /// where there was none.
    pub fn schedule<R: Wait>(
        &mut self,
        rt: &R,
        i: u32,
        due: Sbt,
        prec: Sbt,
        cpu: Option<u32>,
        hold: Option<&Hold<'_>>,
    ) -> Result<Reset, Refused>
        ensures answer { IsSaid reset_word self.old (option_copied hold.entry) i (Plain (Schedule due prec cpu)) result self.new }
        ensures params { self.new.passes.params ≡ self.old.passes.params }
    {
        let op = PlainOp::Schedule { due, prec, cpu };
        let reply = self.call(rt, i, &op, hold)?;
        Ok(reset_word(&reply))
    }

    /// Takes callout `i`'s arming away, as `callout_stop`, and cancels one that waits for the callout's lock.
    ///
    /// Refused with `NoCallout` where there is none of that number, and `NotHeld` where the callout has a lock and
    /// `hold` is not of it exclusively (our own decision).
    pub fn stop<R: Wait>(
        &mut self,
        rt: &R,
        i: u32,
        hold: Option<&Hold<'_>>,
    ) -> Result<Stopped, Refused>
        ensures answer { IsSaid stop_word self.old (option_copied hold.entry) i (Plain Stop) result self.new }
        ensures params { self.new.passes.params ≡ self.old.passes.params }
    {
        let reply = self.call(rt, i, &PlainOp::Stop, hold)?;
        Ok(stop_word(&reply))
    }

    /// Takes callout `i`'s arming away without a wait, as `callout_async_drain`: where a service has the callout, its
    /// end calls the function `func`; else this is a stop, and `func` is not called. Refused as [`Client::stop`] is.
    pub fn async_drain<R: Wait>(
        &mut self,
        rt: &R,
        i: u32,
        func: u32,
        hold: Option<&Hold<'_>>,
    ) -> Result<AsyncDrained, Refused>
        ensures answer { IsSaid async_word self.old (option_copied hold.entry) i (Plain (AsyncDrain func)) result self.new }
        ensures params { self.new.passes.params ≡ self.old.passes.params }
    {
        let reply = self.call(rt, i, &PlainOp::AsyncDrain { func }, hold)?;
        Ok(async_word(&reply))
    }

    /// Takes callout `i`'s arming away and waits until no service has the callout, as `callout_drain`. That the wait
    /// ends no clause says: a CPU has to end the service, so a function calls [`Client::drain_within`].
    ///
    /// Refused with `NoCallout` where there is none of that number, and `HoldsLock` where the caller holds any client
    /// lock (our own decision).
    pub fn drain<R: Wait>(
        &mut self,
        rt: &R,
        i: u32,
        hold: Option<&Hold<'_>>,
    ) -> Result<Drained, Refused>
        ensures answer { IsDrained self.old (option_copied hold.entry) i result self.new }
        ensures params { self.new.passes.params ≡ self.old.passes.params }
    {
        let op = CallOp::DrainTry { took: false };
        match self.timers.refusal(held_of(hold), i, &op) {
            Some(why) => Err(why),
            None => {
                let said = self
                    .timers
                    .drain_on(rt, &mut self.passes, self.act, i, hold);
                self.act = self.act.saturating_add(1);
                Ok(said)
            }
        }
    }

    /// Takes callout `i`'s arming away and waits until no service has the callout, as [`Client::drain`] does, from
    /// within a function, which is told of its service as `fire`.
    ///
    /// Refused with `DrainsItself` where `i` is the callout in whose service the function runs, since it would wait
    /// for its own end for ever; else as `drain` is (our own decisions).
    pub fn drain_within<R: Wait>(
        &mut self,
        rt: &R,
        i: u32,
        fire: &Fire,
        hold: Option<&Hold<'_>>,
    ) -> Result<Drained, Refused>
        ensures answer { IsDrainedWithin fire.now.i self.old (option_copied hold.entry) i result self.new }
        ensures params { self.new.passes.params ≡ self.old.passes.params }
    {
        if i == fire.i {
            return Err(Refused::DrainsItself);
        }
        self.drain(rt, i, hold)
    }
}
