//! What the CPU does: it advances, and services what has come due.
ghost use Rattle.std.specs.Prelude.{◌≡◌, is_some};
ghost use Rattle.std.specs.declared.option.Option.TheVariants.{None};
ghost use Rattle.co_wheel.specs.Callouts.{in_service};
ghost use Rattle.co_bucket.specs.Earliest.{IsEarliest};
ghost use Rattle.co_embed.specs.Serving.{AdvanceAnswers, BeginAnswers, EndAnswers, IsTaken, NextAnswers, served};

use crate::parcel::send_if;
use crate::reply::{told_end, told_next, told_service};
use crate::words::word_at;
use crate::{CalloutParcel, CalloutReply, Embed, Refusal};
use co_queue::Looks;
use co_sbt::Sbt;
use co_wheel::laws::wheels_agree_with_their_queues;
use co_wheel::{EndOut, NextOut};

impl Embed {
    /// What is due by `now` has come due; the answer is how many callouts that are. A time before that of the last advance
    /// counts as that one. `Invalid` exactly where `now` is 2^63 or more.
    pub fn advance(&mut self, now: u64) -> Result<u32, Refusal>
        ensures { AdvanceAnswers result self.old self.new now }
    {
        let Some(time) = Sbt::new(now) else {
            return Err(Refusal::Invalid);
        };
        let mut looks = Looks::new();
        Ok(self.wheel.scan(time, &mut looks))
    }

    /// The first callout that has come due goes into service: of the CPU, or of its interrupt where `direct`.
    ///
    /// `Busy` exactly where one is there already, else `Nothing` exactly where none has come due for it. The answer is `go`,
    /// or `hold` where the callout has a lock: that is to be taken, and `begin` to be called.
    pub fn next(&mut self, direct: bool, reply: &mut CalloutReply) -> Result<(), Refusal>
        ensures { NextAnswers result direct self.old self.new reply.old reply.new }
    {
        if self.is_serving(direct) {
            return Err(Refusal::Busy);
        }
        if !self.wheel.queue().has_come(direct) {
            return Err(Refusal::Nothing);
        }
        wheels_agree_with_their_queues(&self.wheel);
        match self.take_next(direct) {
            NextOut::Empty => unreachable!(),
            NextOut::Took {
                i,
                n,
                at,
                reply: answer,
            } => {
                *reply = told_next(i, word_at(&self.funcs, i), n, at, &answer);
            }
        }
        Ok(())
    }

    /// Whether the CPU has a callout in service, or its interrupt where `direct`.
    pub fn is_serving(&self, direct: bool) -> bool
        ensures { result ≡ is_some (in_service direct self.now.cpu.callouts) }
    {
        if direct {
            self.wheel.directing().is_some()
        } else {
            self.wheel.serving().is_some()
        }
    }

    /// The first callout that has come due goes into a service that is free.
    fn take_next(&mut self, direct: bool) -> NextOut
        requires { in_service direct self.old.cpu.callouts ≡ None }
        ensures { IsTaken direct self.old self.new result }
    {
        if direct {
            self.wheel.next_direct()
        } else {
            self.wheel.next()
        }
    }

    /// The lock of the callout in service is held. `NotInService` exactly where none in the CPU's service waits for its lock.
    ///
    /// The answer is `go`, or `skip` where the arming was cancelled meanwhile.
    pub fn begin(&mut self, reply: &mut CalloutReply) -> Result<(), Refusal>
        ensures { BeginAnswers result self.old self.new reply.old reply.new }
    {
        if !self.wheel.can_begin() {
            return Err(Refusal::NotInService);
        }
        let Some(i) = self.served(false) else {
            return Err(Refusal::NotInService);
        };
        let answer = self.wheel.begin();
        *reply = told_service(i, word_at(&self.funcs, i), &answer);
        Ok(())
    }

    /// The service is over, of the CPU or of its interrupt where `direct`: the function has returned, or was skipped.
    ///
    /// `NotInService` exactly where no service is there that can end. Where the reply has `leaves`, the callout is in the
    /// parcel, which is to land at the reply's CPU.
    pub fn end(
        &mut self,
        direct: bool,
        reply: &mut CalloutReply,
        parcel: &mut CalloutParcel,
    ) -> Result<(), Refusal>
        ensures { EndAnswers result direct self.old self.new reply.old reply.new parcel.old parcel.new }
    {
        if !self.wheel.can_end(direct) {
            return Err(Refusal::NotInService);
        }
        let Some(i) = self.served(direct) else {
            return Err(Refusal::NotInService);
        };
        let mut out = EndOut::none();
        self.wheel.end_into(direct, &mut out);
        *reply = told_end(i, word_at(&self.drains, i), &out);
        send_if(&out.leaves, &self.funcs, i, parcel);
        Ok(())
    }

    /// The callout in service, of the CPU or of its interrupt where `direct`.
    fn served(&self, direct: bool) -> Option<u32>
        ensures { result ≡ served direct self.now.cpu.callouts }
    {
        let served = if direct {
            self.wheel.directing()
        } else {
            self.wheel.serving()
        };
        match served {
            None => None,
            Some((i, _)) => Some(i),
        }
    }

    /// The first time at which there is something to service: that of the last advance where something has come due and is
    /// still to be serviced. None exactly where nothing is armed in this CPU's queue. An advance to a time before it finds
    /// nothing due.
    ///
    /// Takes the time of an advance to that time.
    pub fn earliest(&self) -> Option<u64>
        ensures { IsEarliest self.now.cpu.timers result }
    {
        match self.wheel.queue().earliest() {
            None => None,
            Some(at) => Some(at.raw()),
        }
    }
}
