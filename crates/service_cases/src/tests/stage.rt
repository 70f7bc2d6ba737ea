//! A service to play on, and calls on it.
ghost use Rattle.std.specs.Prelude.{◌≡◌, ◌+◌, ◌==◌, ◌<◌, ◌≤◌, if◌then◌else◌, ℕ, IfOk, length, false};
ghost use Rattle.std.specs.declared.option.Option.{Option};
ghost use Rattle.co_object.specs.declared.op.CallOp.TheVariants.{Plain};
ghost use Rattle.co_object.specs.declared.op.PlainOp.TheVariants.{Reset};
ghost use Rattle.co_object.specs.declared.spec.LockUse.TheVariants.{Free};
ghost use Rattle.co_service.specs.Booted.{AreBooted};
ghost use Rattle.co_desk.specs.Call.{NamesCpu};
ghost use Rattle.co_desk.specs.Params.{spec_at};
ghost use Rattle.service_cases.specs.Scenes.{IsScene};
ghost use Rattle.co_desk.specs.Views.{AreOf};

use co_object::{CallOp, LockUse, Note, PlainOp, Spec};
use co_sbt::{NoMemory, Sbt, Seq};
use co_service::{Fresh, Name, Passes, Service};
use std::alloc::Global;
use std::process::Abort;
use std::sync::Wait;

/// The time of `count` seconds; one second where that is not positive.
pub(super) fn seconds(count: i32) -> Sbt {
    Sbt::from_ticks(count, 1)
}

/// A service of one client and so many CPUs, with 16 buckets each, and callouts without locks, which are direct where `direct`.
pub(super) fn boot(
    alloc: Global,
    version: u32,
    cpus: u32,
    callouts: u32,
    direct: bool,
) -> Result<(Fresh, Seq<Passes>), NoMemory>
    requires version { (1 ≤ version) × (version ≤ 2) }
    requires cpus { (1 ≤ cpus) × (cpus ≤ 16) }
    requires callouts { (1 ≤ callouts) × (callouts ≤ 1024) }
    requires later { version ≡ 1 → direct ≡ false }
    ensures scene { IfOk result (λ made. IsScene version cpus callouts (if version == 1 then 1 + cpus else 1 + (cpus + cpus)) made.0.params) }
    ensures passes { IfOk result (λ made. AreBooted made.0.name made.0.params made.1) }
{
    let spec = Spec {
        lock: LockUse::Free,
        returns_unlocked: false,
        direct,
    };
    let specs = Seq::filled(alloc, callouts as usize, spec)?;
    Service::boot(alloc, version, cpus, 16, 1, specs.as_slice())
}

/// Keeps a note.
pub(super) fn keep<R: Abort>(rt: &R, log: &mut Vec<Note>, note: Note) {
    log.push(note).expect(rt, "no memory");
}

/// Keeps the notes of an answer.
pub(super) fn keep_all<R: Abort>(rt: &R, log: &mut Vec<Note>, notes: [Option<Note>; 3]) {
    for note in &notes {
        if let Some(note) = note {
            keep(rt, log, *note);
        }
    }
}

/// A reset of callout `i`, which needs no hold, to function 0, on this CPU or at home.
pub(super) fn arm<N: Name, R: Wait + Abort>(
    rt: &R,
    service: &Service<N>,
    log: &mut Vec<Note>,
    passes: &mut Passes,
    act: u64,
    i: u32,
    due: Sbt,
    arg: u64,
    cpu: Option<u32>,
)
    requires free { (k : ℕ) → (spec_at service.now k).lock ≡ Free }
    requires passes { AreOf N.name service.now passes.old }
    requires callout { i < length service.now.specs }
    requires cpu { NamesCpu service.now.cpus (Plain (Reset due 0 0 arg cpu)) }
    ensures of { AreOf N.name service.now passes.new }
{
    let op = CallOp::Plain(PlainOp::Reset {
        due,
        prec: Sbt::zero(),
        func: 0,
        arg,
        cpu,
    });
    let made = service.call(rt, passes, act, i, &op, None);
    keep_all(rt, log, made.notes);
}
