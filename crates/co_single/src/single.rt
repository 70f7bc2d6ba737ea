//! A running service of one actor.
ghost use Rattle.std.specs.Prelude.{◌≡◌, ◌<◌, ◌^◌, [], IfNone, IfOk, IfSome};
ghost use Rattle.co_single.specs.Acts.{IsArmed, IsDisarmed, IsFired, NothingWaits, IsNew, IsScanned};
ghost use Rattle.co_single.specs.Alarms.{arg_in, callout_count, made_at, waiting_of};
ghost use Rattle.co_single.specs.Seen.{AddsEntries, AreOfActor};

use crate::SingleFresh;
use co_object::{CallOp, PlainOp, Reply};
use co_sbt::{NoMemory, Room, Sbt};
use co_service::{Closing, Finished, Name, Passes, Popped, Service, Told};
use std::alloc::Global;
use std::marker::Model;
use std::sync::Wait;

/// A running service and its one actor. Between two calls nothing is in service.
///
/// Contracts see what the actor has seen, which is all that happened. Its calls take no memory, and the entries of each are
/// of the act that it is given.
#[derive(Drop)]
pub struct Single<N: Name> {
    service: Service<N>,
    passes: Passes,
    /// What the last call did. Calls write it in place, and nobody reads it.
    told: Told,
    /// What the last end of a service did, in the same way.
    finished: Finished,
    /// What the end needs.
    ending: Room<Passes>,
}

impl<N: Name> Model for Single<N> {
    ghost use Rattle.co_desk.specs.Views.{PassesView};
    ghost use Rattle.co_single.specs.Rest.{IsSingle};

    ghost Value = { PassesView };

    ghost view = { λ s. s.passes };

    ghost invariant = { λ s. IsSingle N.name s.service s.passes s.ending };
}

/// A callout that fired.
#[derive(Debug, Clone, Copy, PartialEq, Eq)]
pub struct Fired {
    /// The callout.
    pub i: u32,
    /// The argument of its arming.
    pub arg: u64,
}

/// The argument with which a function is to run; 0 where none is.
fn arg_of(reply: &Reply) -> u64
    ensures { result ≡ arg_in reply.now }
{
    match *reply {
        Reply::Go { arg, .. } => arg,
        _ => 0,
    }
}

impl<N: Name> Single<N> {
    /// The running service, at time 0. `NoMemory` where its opening finds no room; no later call takes any.
    pub fn open(alloc: Global, fresh: SingleFresh) -> Result<Single<N>, NoMemory>
        requires { fresh.name ≡ N.name }
        ensures { IfOk result (λ single. IsNew fresh.callouts single) }
    {
        let SingleFresh {
            fresh,
            passes,
            ending,
        } = fresh;
        let service = Service::open(alloc, fresh)?;
        Ok(Single {
            service,
            passes,
            told: Told::none(),
            finished: Finished::none(),
            ending,
        })
    }

    /// Callout `i` is armed for the time `due`, in units of 2^-32 s, with this argument, in the place of any old
    /// arming. One that had come due and was not served does not fire.
    pub fn arm<R: Wait>(&mut self, rt: &R, act: u64, i: u32, due: Sbt, arg: u64)
        requires callout { i < callout_count self.old }
        requires made { made_at self.old i < 2 ^ 62 }
        ensures armed { IsArmed self.old i due arg self.new }
        ensures entries { AddsEntries self.old act self.new }
    {
        let op = CallOp::Plain(PlainOp::Reset {
            due,
            prec: Sbt::zero(),
            func: 0,
            arg,
            cpu: None,
        });
        self.service
            .call_alone(rt, &mut self.passes, act, i, &op, None, &mut self.told);
    }

    /// Callout `i` is not armed any more. One that had come due and was not served does not fire.
    pub fn disarm<R: Wait>(&mut self, rt: &R, act: u64, i: u32)
        requires callout { i < callout_count self.old }
        ensures disarmed { IsDisarmed self.old i self.new }
        ensures entries { AddsEntries self.old act self.new }
    {
        let op = CallOp::Plain(PlainOp::Stop);
        self.service
            .call_alone(rt, &mut self.passes, act, i, &op, None, &mut self.told);
    }

    /// The clock shows the time `now`, in units of 2^-32 s, or where it was later stays: what is due has come due. The
    /// answer is how many callouts these are, none of which waited before.
    pub fn scan<R: Wait>(&mut self, rt: &R, act: u64, now: Sbt) -> u32
        requires served { waiting_of self.old ≡ [] }
        ensures scanned { IsScanned self.old now result self.new }
        ensures entries { AddsEntries self.old act self.new }
    {
        self.service
            .scan_alone(rt, &mut self.passes, 0, act, now)
            .count
    }

    /// The first callout that waits fires, and its service is over. None where nothing waits.
    pub fn fire<R: Wait>(&mut self, rt: &R, act: u64) -> Option<Fired>
        ensures none { IfNone result (NothingWaits self.old self.new) }
        ensures some { IfSome result (λ fired. IsFired self.old fired.i fired.arg self.new) }
        ensures entries { AddsEntries self.old act self.new }
    {
        match self
            .service
            .pop_alone(rt, &mut self.passes, 0, act, 0, false)
        {
            Popped::Empty { .. } => None,
            Popped::Took { i, reply, .. } => {
                self.service
                    .end_alone(rt, &mut self.passes, 0, act, false, &mut self.finished);
                let said = reply.reply();
                let arg = arg_of(&said);
                Some(Fired { i, arg })
            }
        }
    }

    /// Ends the service. The final histories are what the actor has seen, and each of their entries is the actor's, whose number
    /// is 0.
    pub fn close<R: Wait>(self, rt: &R) -> Closing
        ensures name { result.name ≡ N.name }
        ensures timers { result.timers ≡ self.timers }
        ensures cpus { result.cpus ≡ self.cpus }
        ensures actors { AreOfActor 0 result.timers result.cpus }
    {
        let Single {
            service,
            passes,
            told: _,
            finished: _,
            mut ending,
        } = self;
        ending.push(passes);
        service.close(rt, ending.into_seq())
    }
}
