//! The parts of the program: its service, and the functions of its callouts.
ghost use Rattle.std.specs.Prelude.{◌≡◌, [], IfOk};
ghost use Rattle.embedding_example.specs.Example.{example};

use co_hand::{Fire, Handler, Port};
use co_lock::Hold;
use co_object::{LockUse, PlainOp, Spec};
use co_sbt::{NoMemory, Sbt};
use co_timers::TimersFresh;
use std::alloc::Global;

/// A service with one CPU of 256 buckets, one client and one callout, which has no lock. `NoMemory` where there is no
/// room for it.
pub fn boot(alloc: Global) -> Result<TimersFresh, NoMemory>
    ensures { IfOk result (λ fresh. fresh.params ≡ example) }
{
    let callout = Spec {
        lock: LockUse::Free,
        returns_unlocked: false,
        direct: false,
    };
    TimersFresh::boot(alloc, 1, 1, 256, &[callout], &[])
}

/// The functions of the program's callouts: a heart that beats once a second.
#[derive(Drop)]
pub struct Heart {
    /// How often it has beaten.
    pub beats: u64,
    /// The argument of the last beat.
    pub arg: u64,
}

impl Handler for Heart {
    ghost use Rattle.embedding_example.specs.Example.{BeatsOrRests, example_needs};

    ghost needs = { λ _. example_needs };

    ghost runs = { BeatsOrRests };

    /// Counts, and arms its callout again for a second later.
    fn run<P: Port>(&mut self, fire: &Fire, hold: Option<&mut Hold<'_>>, port: &mut P) {
        self.beats = self.beats.saturating_add(1);
        self.arg = fire.arg;
        let due = fire.at.sat_add(Sbt::from_ticks(1, 1));
        let again = PlainOp::Reset {
            due,
            prec: Sbt::zero(),
            func: fire.func,
            arg: fire.arg,
            cpu: None,
        };
        match hold {
            Some(hold) => port.call(fire.i, &again, Some(hold)),
            None => port.call(fire.i, &again, None),
        };
    }

    fn run_unlock<P: Port>(&mut self, fire: &Fire, hold: Hold<'_>, port: &mut P) {
        drop(hold);
        self.run(fire, None, port);
    }

    /// Here no drain is asynchronous; one would be told whether the callout is armed again.
    fn drained<P: Port>(&mut self, fire: &Fire, _func: u32, port: &mut P) {
        port.call(fire.i, &PlainOp::Pending, None);
    }
}
