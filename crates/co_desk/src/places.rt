//! The places of a service.
use crate::seats::Lives;
use crate::{CpuStory, TimerStory};
use std::marker::Model;

/// The lives of all places of a service. Contracts see its name.
#[derive(Drop)]
pub struct Places {
    callouts: Lives<TimerStory>,
    wheels: Lives<CpuStory>,
}

impl Model for Places {
    ghost use Rattle.co_desk.specs.Name.{ServiceName};

    ghost Value = { ServiceName };

    ghost view = { λ p. record { timers = p.callouts; cpus = p.wheels } };
}

impl Places {
    ghost use Rattle.std.specs.Prelude.{◌≡◌};

    /// The places of these lives.
    pub fn new(callouts: Lives<TimerStory>, wheels: Lives<CpuStory>) -> Places
        ensures { result ≡ record { timers = callouts; cpus = wheels } }
    {
        Places { callouts, wheels }
    }

    /// The lives of the callouts.
    #[inline(always)]
    pub(crate) fn timers(&self) -> &Lives<TimerStory>
        ensures { result.now ≡ self.now.timers }
    {
        &self.callouts
    }

    /// The lives of the CPUs.
    #[inline(always)]
    pub(crate) fn cpus(&self) -> &Lives<CpuStory>
        ensures { result.now ≡ self.now.cpus }
    {
        &self.wheels
    }

    /// The lives of the callouts, and those of the CPUs.
    pub fn into_lives(self) -> (Lives<TimerStory>, Lives<CpuStory>)
        ensures { (result.0 ≡ self.timers) × (result.1 ≡ self.cpus) }
    {
        (self.callouts, self.wheels)
    }
}
