//! Calls of one who has the service to himself, which take no lock: a callout that lands at another CPU, its service there, and an
//! arming that is taken away again.
ghost use Rattle.std.specs.Prelude.{◌≡◌, ◌<◌, ℕ, false, length};
ghost use Rattle.co_object.specs.Journal.{scanner};
ghost use Rattle.co_object.specs.declared.op.CallOp.TheVariants.{Plain};
ghost use Rattle.co_object.specs.declared.op.PlainOp.TheVariants.{Reset};
ghost use Rattle.co_object.specs.declared.spec.LockUse.TheVariants.{Free};
ghost use Rattle.co_desk.specs.Call.{NamesCpu};
ghost use Rattle.co_desk.specs.Params.{actors_of, spec_at};
ghost use Rattle.co_desk.specs.Services.{IsFree};
ghost use Rattle.co_desk.specs.Views.{AreOf};
ghost use Rattle.co_service.specs.Booted.{AreBooted};
ghost use Rattle.service_cases.specs.Scenes.{IsScene};

use super::acts::keep_begun;
use super::cast::leave_three;
use super::notes::{Lane, Row, Told};
use super::stage::{keep, keep_all, seconds};
use co_object::{CallOp, Note, Place, PlainOp};
use co_sbt::{Sbt, Seq};
use co_service::{Finished, Name, Passes, Popped, Service};
use std::process::Abort;
use std::sync::Wait;

/// The client's call on callout 0, which needs no hold.
fn ask<N: Name, R: Wait + Abort>(
    rt: &R,
    service: &mut Service<N>,
    log: &mut Vec<Note>,
    passes: &mut Passes,
    act: u64,
    op: PlainOp,
)
    requires free { (k : ℕ) → (spec_at service.old k).lock ≡ Free }
    requires passes { AreOf N.name service.old passes.old }
    requires callout { 0 < length service.old.specs }
    requires cpu { NamesCpu service.old.cpus (Plain op) }
    ensures params { service.new ≡ service.old }
    ensures of { AreOf N.name service.old passes.new }
{
    let actor = passes.actor();
    let op = CallOp::Plain(op);
    let mut told = co_service::Told::none();
    service.call_alone(rt, passes, act, 0, &op, None, &mut told);
    keep_all(rt, log, told.answer(actor, act, 0, &op).notes);
}

/// The client's reset of callout 0 to function 0, on this CPU or at home.
fn arm<N: Name, R: Wait + Abort>(
    rt: &R,
    service: &mut Service<N>,
    log: &mut Vec<Note>,
    passes: &mut Passes,
    act: u64,
    due: Sbt,
    arg: u64,
    cpu: Option<u32>,
)
    requires free { (k : ℕ) → (spec_at service.old k).lock ≡ Free }
    requires passes { AreOf N.name service.old passes.old }
    requires callout { 0 < length service.old.specs }
    requires cpu { NamesCpu service.old.cpus (Plain (Reset due 0 0 arg cpu)) }
    ensures params { service.new ≡ service.old }
    ensures of { AreOf N.name service.old passes.new }
{
    let op = PlainOp::Reset {
        due,
        prec: Sbt::zero(),
        func: 0,
        arg,
        cpu,
    };
    ask(rt, service, log, passes, act, op);
}

/// The CPU's queue is scanned, and the one callout that has come due is serviced: its function is called and returns, and nothing
/// more is there.
fn turn<N: Name, R: Wait + Abort>(
    rt: &R,
    service: &mut Service<N>,
    log: &mut Vec<Note>,
    passes: &mut Passes,
    cpu: u32,
    now: Sbt,
)
    requires cpu { cpu < service.old.cpus }
    requires passes { AreOf N.name service.old passes.old }
    requires scanner { passes.old.actor ≡ scanner (actors_of service.old) cpu }
    requires free { IsFree false passes.old cpu }
    ensures params { service.new ≡ service.old }
{
    let scan = service.scan_alone(rt, passes, cpu, 0, now);
    keep(rt, log, scan.note);
    let actor = passes.actor();
    let popped = service.pop_alone(rt, passes, cpu, 0, 1, false);
    keep_begun(rt, log, popped.answer(actor, 0, cpu, false));
    let mut told = Finished::none();
    service.end_alone(rt, passes, cpu, 0, false, &mut told);
    keep_all(rt, log, told.answer(actor, 0).notes);
    let popped = service.pop_alone(rt, passes, cpu, 0, 1, false);
    assert!(rt; matches!(popped, Popped::Empty { pop: 4 }));
}

/// The client arms the callout for the second CPU, which serves it, arms it once more, and takes the arming away.
pub(super) fn play<N: Name, R: Wait + Abort>(
    rt: &R,
    service: &mut Service<N>,
    log: &mut Vec<Note>,
    passes: Seq<Passes>,
)
    requires scene { IsScene 1 2 1 3 service.old }
    requires passes { AreBooted N.name service.old passes }
{
    let (mut client, first, mut second) = leave_three(service, passes);
    drop(first);
    arm(rt, service, log, &mut client, 0, seconds(1), 7, Some(1));
    turn(rt, service, log, &mut second, 1, seconds(1));
    arm(rt, service, log, &mut client, 1, seconds(2), 8, None);
    ask(rt, service, log, &mut client, 2, PlainOp::Stop);
    drop(client);
    drop(second);
}

pub(super) static NOTES: [Row; 11] = [
    (Place::Timer(0), 0, 0, 0, Told::Armed(1, 7, Some(1), 0, 1)),
    (Place::Cpu(1), 0, 0, 0, Told::Inserted(0, 0, 1)),
    (Place::Cpu(1), 1, 2, 0, Told::Scanned(1, 1)),
    (Place::Cpu(1), 2, 2, 0, Told::Popped(Lane::Own, 0, 0, 1)),
    (Place::Timer(0), 1, 2, 0, Told::Picked(0, 1, 1, Some(7))),
    (Place::Timer(0), 2, 2, 0, Told::Ended(0, 1, None)),
    (Place::Cpu(1), 3, 2, 0, Told::Freed(Lane::Own)),
    (Place::Timer(0), 3, 0, 1, Told::Armed(2, 8, None, 1, 1)),
    (Place::Cpu(1), 5, 0, 1, Told::Inserted(0, 1, 2)),
    (Place::Cpu(1), 6, 0, 2, Told::Removed(0)),
    (Place::Timer(0), 4, 0, 2, Told::Stopped(1, Some(1))),
];
