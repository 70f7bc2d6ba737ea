//! What a CPU and its interrupt do in a service that is played.
ghost use Rattle.std.specs.Prelude.{◌≡◌, ◌<◌, ℕ, Bool, false};
ghost use Rattle.co_object.specs.Journal.{scanner};
ghost use Rattle.co_object.specs.Queue.{Due};
ghost use Rattle.co_desk.specs.Params.{actors_of};
ghost use Rattle.co_desk.specs.Services.{HasNext, IsFree, IsServing};
ghost use Rattle.co_desk.specs.Serving.{Runs};
ghost use Rattle.co_desk.specs.Views.{AreOf, PassesView};

use super::stage::{keep, keep_all};
use co_object::{Note, Reply};
use co_sbt::Sbt;
use co_service::{Name, Passes, Service, Taken};
use std::process::Abort;
use std::sync::Wait;

/// The CPU's queue is scanned.
pub(super) fn tick<N: Name, R: Wait + Abort>(
    rt: &R,
    service: &Service<N>,
    log: &mut Vec<Note>,
    passes: &mut Passes,
    cpu: u32,
    now: Sbt,
)
    requires cpu { cpu < service.now.cpus }
    requires passes { AreOf N.name service.now passes.old }
    requires scanner { passes.old.actor ≡ scanner (actors_of service.now) cpu }
    ensures of { AreOf N.name service.now passes.new }
    ensures actor { passes.new.actor ≡ passes.old.actor }
    ensures free { (direct : Bool) (x : ℕ) → IsFree direct passes.old x → IsFree direct passes.new x }
{
    let scan = service.scan(rt, passes, cpu, 0, now);
    keep(rt, log, scan.note);
}

/// Keeps the notes of a start whose function is to be called at once.
pub(super) fn keep_begun<R: Abort>(rt: &R, log: &mut Vec<Note>, taken: Taken)
    ensures { (direct : Bool) (q : PassesView) (cpu : ℕ) → HasNext direct q cpu taken → (d : Due) × IsServing direct q cpu d (Runs d.n) }
{
    let Taken::Took {
        reply: Reply::Go { .. },
        pop,
        pick,
        ..
    } = taken
    else {
        panic!(rt; "no function is to be called");
    };
    keep(rt, log, pop);
    keep(rt, log, pick);
}

/// Keeps the note where nothing had come due.
pub(super) fn keep_nothing<R: Abort>(rt: &R, log: &mut Vec<Note>, taken: Taken) {
    let note = match taken {
        Taken::Empty { note } => Some(note),
        Taken::Took { .. } => None,
    };
    keep(rt, log, note.expect(rt, "something had come due"));
}

/// The CPU finds nothing more to service.
pub(super) fn rest<N: Name, R: Wait + Abort>(
    rt: &R,
    service: &Service<N>,
    log: &mut Vec<Note>,
    passes: &mut Passes,
    cpu: u32,
)
    requires cpu { cpu < service.now.cpus }
    requires passes { AreOf N.name service.now passes.old }
    requires free { IsFree false passes.old cpu }
    ensures of { AreOf N.name service.now passes.new }
{
    let taken = service.next(rt, passes, cpu, 0, 1);
    keep_nothing(rt, log, taken);
}

/// The CPU's function returns.
pub(super) fn finish<N: Name, R: Wait + Abort>(
    rt: &R,
    service: &Service<N>,
    log: &mut Vec<Note>,
    passes: &mut Passes,
    cpu: u32,
)
    requires cpu { cpu < service.now.cpus }
    requires passes { AreOf N.name service.now passes.old }
    requires serving { (d : Due) × IsServing false passes.old cpu d (Runs d.n) }
    ensures of { AreOf N.name service.now passes.new }
    ensures actor { passes.new.actor ≡ passes.old.actor }
    ensures free { IsFree false passes.new cpu }
{
    let made = service.end(rt, passes, cpu, 0);
    keep_all(rt, log, made.notes);
}
