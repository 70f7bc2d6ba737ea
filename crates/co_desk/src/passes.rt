//! What one actor has seen of a service.
ghost use Rattle.std.specs.Prelude.{◌≡◌};
ghost use Rattle.co_desk.specs.Views.{ArePasses, passes_of};

use crate::seats::Seats;
use crate::{CpuStory, Params, TimerStory};
use co_life::Shown;
use std::marker::Model;

/// One actor's passes of all callouts and all CPUs of a service. They may go to another thread.
///
/// Contracts see the service's name and parameters, the actor's number, and what it has seen of each history.
#[derive(Drop)]
pub struct Passes {
    actor: u32,
    /// How many actors the service has.
    pub(crate) actors: u32,
    params: Shown<Params>,
    pub(crate) timers: Seats<TimerStory>,
    pub(crate) cpus: Seats<CpuStory>,
}

impl Model for Passes {
    ghost use Rattle.co_desk.specs.Views.{PassesView, passes_of, ArePasses};

    ghost Value = { PassesView };

    ghost view = { λ p. passes_of p.actor p.params.value p.timers p.cpus };

    ghost invariant = { λ p. ArePasses p.actors p.actor p.params.value p.timers p.cpus };
}

impl Passes {
    /// An actor's passes, of its seats at the callouts and at the CPUs of a service of so many actors.
    pub fn new(
        actor: u32,
        actors: u32,
        params: &Params,
        timers: Seats<TimerStory>,
        cpus: Seats<CpuStory>,
    ) -> Passes
        requires { ArePasses actors actor params.now timers cpus }
        ensures { result ≡ passes_of actor params.now timers cpus }
    {
        Passes {
            actor,
            actors,
            params: Shown::of(params),
            timers,
            cpus,
        }
    }

    /// The actor's number.
    #[inline(always)]
    pub fn actor(&self) -> u32
        ensures { result ≡ self.now.actor }
    {
        self.actor
    }
}
