//! The parts of a service, each one call of the service for an actor of a CPU.
ghost use Rattle.std.specs.Prelude.{◌≡◌, ◌<◌, false, true};
ghost use Rattle.std.specs.declared.option.Option.TheVariants.{Some};
ghost use Rattle.co_lock.specs.Service.{hold_of};
ghost use Rattle.co_object.specs.Serve.{has_lock};
ghost use Rattle.co_desk.specs.Call.{notes_in};
ghost use Rattle.co_desk.specs.Params.{spec_at};
ghost use Rattle.co_desk.specs.Services.{FollowsScans, IsEnded, IsTaken};
ghost use Rattle.co_desk.specs.Serving.{Runs, stage_picked};
ghost use Rattle.co_desk.specs.Views.{journal_seen};
ghost use Rattle.co_timers.specs.Rounds.{HasTaken, IsAbout, IsAtEase, IsBegin, MayBeServed, called_by, drain_of, waits_for_lock};

use crate::Timers;
use co_lock::{Hold, hold_of};
use co_object::Reply;
use co_service::{Made, Name, Passes, Taken};
use std::sync::Wait;

/// The function waits for the callout's lock.
pub(crate) fn waits(reply: &Reply) -> bool
    ensures { result ≡ waits_for_lock reply.now }
{
    match reply {
        Reply::Hold => true,
        _ => false,
    }
}

/// The function that is to be called now, with its argument.
pub(crate) fn called_by(reply: &Reply) -> Option<(u32, u64)>
    ensures { result ≡ called_by reply.now }
{
    match reply {
        Reply::Go { func, arg } => Some((*func, *arg)),
        _ => None,
    }
}

/// The function of the asynchronous drain that awaited the end.
pub(crate) fn drain_of(reply: &Reply) -> Option<u32>
    ensures { result ≡ drain_of reply.now }
{
    match reply {
        Reply::Ended { drain, .. } => *drain,
        _ => None,
    }
}

impl<N: Name> Timers<N> {
    /// The first callout that has come due goes into the service of the CPU, or of its interrupt where `direct`. It is a callout of the service, and
    /// waits for its lock only where it has one.
    pub(crate) fn take<R: Wait>(
        &self,
        rt: &R,
        passes: &mut Passes,
        cpu: u32,
        act: u64,
        scans: u64,
        direct: bool,
    ) -> Taken
        requires at_ease { IsAtEase N.name self.now.params direct cpu passes.old }
        requires none { direct ≡ true → scans ≡ 0 }
        ensures taken { IsTaken direct passes.old cpu act result passes.new }
        ensures scans { FollowsScans scans (journal_seen passes.new cpu) }
        ensures next { HasTaken N.name self.now.params direct cpu result passes.new }
    {
        match direct {
            true => self.service.next_direct(rt, passes, cpu, act),
            false => self.service.next(rt, passes, cpu, act, scans),
        }
    }

    /// Takes the lock of callout `i`, in the mode that its spec wants. It waits for the lock.
    fn lock_of<R: Wait + Sync>(&self, rt: &R, i: u32) -> Hold<'_>
        requires { has_lock (spec_at self.now.params i).lock ≡ true }
        ensures { hold_of (spec_at self.now.params i).lock ≡ Some result }
    {
        let Some(held) = hold_of(self.spec(i).lock) else {
            unreachable!()
        };
        if held.exclusive {
            self.locks.lock(rt, held.id)
        } else {
            self.locks.read(rt, held.id)
        }
    }

    /// What the service of what was taken begins with: where it waits for the callout's lock, that is taken first.
    pub(crate) fn begin_lane<R: Wait + Sync>(
        &self,
        rt: &R,
        passes: &mut Passes,
        cpu: u32,
        act: u64,
        direct: bool,
        i: u32,
        n: u64,
        reply: Reply,
    ) -> (Reply, Option<Hold<'_>>)
        requires about { IsAbout N.name self.now.params direct cpu (record { i = i; n = n }) (stage_picked n reply) passes.old }
        requires may { MayBeServed direct self.now.params i reply }
        ensures begins { IsBegin (waits_for_lock reply) passes.old cpu act (record { i = i; n = n }) reply result.0 passes.new }
        ensures hold { result.1 ≡ hold_of (spec_at self.now.params i).lock }
        ensures about { IsAbout N.name self.now.params direct cpu (record { i = i; n = n }) (Runs n) passes.new }
    {
        if !waits(&reply) {
            return (reply, None);
        }
        let hold = self.lock_of(rt, i);
        let made = self.service.begin(rt, passes, cpu, act, &hold);
        (made.reply, Some(hold))
    }

    /// The service is over: of the CPU, or of its interrupt where `direct`.
    pub(crate) fn finish<R: Wait>(
        &self,
        rt: &R,
        passes: &mut Passes,
        cpu: u32,
        act: u64,
        direct: bool,
        i: u32,
        n: u64,
    ) -> Made
        requires { IsAbout N.name self.now.params direct cpu (record { i = i; n = n }) (Runs n) passes.old }
        ensures ended { IsEnded direct passes.old cpu act (record { i = i; n = n }) result.reply (notes_in result.notes) passes.new }
        ensures at_ease { IsAtEase N.name self.now.params direct cpu passes.new }
    {
        match direct {
            true => self.service.end_direct(rt, passes, cpu, act),
            false => self.service.end(rt, passes, cpu, act),
        }
    }
}
