//! A caller's operations.
ghost use Rattle.std.specs.Prelude.{◌≡◌};
ghost use Rattle.std.specs.declared.option.Option.TheVariants.{Some, None};
ghost use Rattle.co_object.specs.declared.op.CallOp.TheVariants.{DrainTry, Plain};
ghost use Rattle.co_object.specs.declared.op.PlainOp.TheVariants.{Stop, AsyncDrain, Active, Pending, Deactivate};
ghost use Rattle.co_embed.specs.Calls.{Answers, ArmAnswers, ArmedOr, DrainAnswers, IsCalled, QueryAnswers, is_yes, kept_drain, kept_func};
ghost use Rattle.co_embed.specs.Times.{reset_op, schedule_op};

use crate::parcel::send_if;
use crate::reply::told_call;
use crate::times::{cpu_meant, times_of};
use crate::words::set_word;
use crate::{CalloutParcel, CalloutReply, Embed, Refusal, When};
use co_object::{CallOp, PlainOp, Reply};
use co_wheel::CallOut;

impl Embed {
    /// An operation on a callout that is here.
    #[inline(always)]
    fn call(&mut self, id: u32, op: &CallOp, out: &mut CallOut) -> Result<(), Refusal>
        ensures { IsCalled result self.old self.new id op.now out.new }
    {
        if !self.wheel.holds(id) {
            return Err(Refusal::NotHere);
        }
        self.wheel.call_into(id, op, out);
        Ok(())
    }

    /// An operation that may arm a callout: it has the function's word then, where there is one.
    #[inline(always)]
    fn arm(
        &mut self,
        id: u32,
        op: &CallOp,
        func: Option<u64>,
        reply: &mut CalloutReply,
        parcel: &mut CalloutParcel,
    ) -> Result<(), Refusal>
        ensures { ArmedOr result self.old self.new id op.now func reply.old reply.new parcel.old parcel.new }
    {
        let mut out = CallOut::none();
        match self.call(id, op, &mut out) {
            Err(refusal) => Err(refusal),
            Ok(()) => {
                keep_func(&mut self.funcs, id, func, &out.reply);
                *reply = told_call(id, &out);
                send_if(&out.leaves, &self.funcs, id, parcel);
                Ok(())
            }
        }
    }

    /// Arms callout `id`, as `callout_reset_sbt_on` does: from `when.due` on it may call `func` with `arg` at `when.cpu`.
    ///
    /// `Invalid` exactly where a time is 2^63 or more, else `NotHere` exactly where the callout is not here. Where the reply
    /// has `leaves`, the callout is here no more: it is in the parcel, which is to land at the reply's CPU.
    pub fn reset(
        &mut self,
        id: u32,
        when: When,
        func: u64,
        arg: u64,
        reply: &mut CalloutReply,
        parcel: &mut CalloutParcel,
    ) -> Result<(), Refusal>
        ensures { ArmAnswers result self.old self.new id when (reset_op self.old.cpu.callouts.cpu when arg) (Some func)
            reply.old reply.new parcel.old parcel.new }
    {
        let Some((due, prec)) = times_of(when) else {
            return Err(Refusal::Invalid);
        };
        let op = CallOp::Plain(PlainOp::Reset {
            due,
            prec,
            func: 0,
            arg,
            cpu: cpu_meant(when.cpu, self.wheel.cpu()),
        });
        self.arm(id, &op, Some(func), reply, parcel)
    }

    /// Arms callout `id` with the function and argument of its last reset, as `callout_schedule_sbt_on` does. The rest is as
    /// for `reset`.
    pub fn schedule(
        &mut self,
        id: u32,
        when: When,
        reply: &mut CalloutReply,
        parcel: &mut CalloutParcel,
    ) -> Result<(), Refusal>
        ensures { ArmAnswers result self.old self.new id when (schedule_op self.old.cpu.callouts.cpu when) None
            reply.old reply.new parcel.old parcel.new }
    {
        let Some((due, prec)) = times_of(when) else {
            return Err(Refusal::Invalid);
        };
        let op = CallOp::Plain(PlainOp::Schedule {
            due,
            prec,
            cpu: cpu_meant(when.cpu, self.wheel.cpu()),
        });
        self.arm(id, &op, None, reply, parcel)
    }

    /// Stops callout `id`, as `callout_stop` does. `NotHere` exactly where it is not here.
    pub fn stop(&mut self, id: u32, reply: &mut CalloutReply) -> Result<(), Refusal>
        ensures { Answers result self.old self.new id (Plain Stop) reply.old reply.new }
    {
        self.answer(id, &CallOp::Plain(PlainOp::Stop), reply)
    }

    /// One try of `callout_drain`, which is to be tried again after each `wait`, once the service that has the callout is
    /// over: then with what the reply says of `took`, at first with false. `NotHere` exactly where the callout is not here.
    pub fn drain_try(
        &mut self,
        id: u32,
        took: bool,
        reply: &mut CalloutReply,
    ) -> Result<(), Refusal>
        ensures { Answers result self.old self.new id (DrainTry took) reply.old reply.new }
    {
        self.answer(id, &CallOp::DrainTry { took }, reply)
    }

    /// Drains callout `id`, as `callout_async_drain` does: where a service has it, the end of that names `func`, once.
    /// `NotHere` exactly where it is not here.
    pub fn async_drain(
        &mut self,
        id: u32,
        func: u64,
        reply: &mut CalloutReply,
    ) -> Result<(), Refusal>
        ensures { DrainAnswers result self.old self.new id func reply.old reply.new }
    {
        let op = CallOp::Plain(PlainOp::AsyncDrain { func: 0 });
        let mut out = CallOut::none();
        match self.call(id, &op, &mut out) {
            Err(refusal) => Err(refusal),
            Ok(()) => {
                keep_drain(&mut self.drains, id, func, &out.reply);
                *reply = told_call(id, &out);
                Ok(())
            }
        }
    }

    /// Whether callout `id` is armed, as `callout_pending` tells. `NotHere` exactly where it is not here.
    pub fn pending(&mut self, id: u32) -> Result<bool, Refusal>
        ensures { QueryAnswers result self.old self.new id (Plain Pending) }
    {
        self.query(id, &CallOp::Plain(PlainOp::Pending))
    }

    /// Whether callout `id` is active, as `callout_active` tells. `NotHere` exactly where it is not here.
    pub fn active(&mut self, id: u32) -> Result<bool, Refusal>
        ensures { QueryAnswers result self.old self.new id (Plain Active) }
    {
        self.query(id, &CallOp::Plain(PlainOp::Active))
    }

    /// Callout `id` is no longer active, as `callout_deactivate` makes it. `NotHere` exactly where it is not here.
    pub fn deactivate(&mut self, id: u32) -> Result<bool, Refusal>
        ensures { QueryAnswers result self.old self.new id (Plain Deactivate) }
    {
        self.query(id, &CallOp::Plain(PlainOp::Deactivate))
    }

    /// An operation whose whole answer is the reply.
    #[inline(always)]
    fn answer(&mut self, id: u32, op: &CallOp, reply: &mut CalloutReply) -> Result<(), Refusal>
        ensures { Answers result self.old self.new id op.now reply.old reply.new }
    {
        let mut out = CallOut::none();
        if let Err(refusal) = self.call(id, op, &mut out) {
            return Err(refusal);
        }
        *reply = told_call(id, &out);
        Ok(())
    }

    /// An operation whose whole answer is yes or not.
    fn query(&mut self, id: u32, op: &CallOp) -> Result<bool, Refusal>
        ensures { QueryAnswers result self.old self.new id op.now }
    {
        let mut out = CallOut::none();
        if let Err(refusal) = self.call(id, op, &mut out) {
            return Err(refusal);
        }
        Ok(is_yes(&out.reply))
    }
}

/// Whether it is `Yes`.
#[inline(always)]
fn is_yes(reply: &Reply) -> bool
    ensures { result ≡ is_yes reply.now }
{
    match reply {
        Reply::Yes => true,
        _ => false,
    }
}

/// An accepted arming has the function's word, where there is one.
#[inline(always)]
fn keep_func(funcs: &mut [u64], id: u32, func: Option<u64>, reply: &Reply)
    ensures { funcs.new ≡ kept_func funcs.old id func reply.now }
{
    if let Reply::Armed { .. } = reply {
        if let Some(func) = func {
            set_word(funcs, id, func);
        }
    }
}

/// An accepted drain has the function's word.
fn keep_drain(drains: &mut [u64], id: u32, func: u64, reply: &Reply)
    ensures { drains.new ≡ kept_drain drains.old id func reply.now }
{
    if let Reply::Stopped { .. } = reply {
        set_word(drains, id, func);
    }
}
