//! Calls that tell in few words what they did, and the notes that are made of these.
ghost use Rattle.std.specs.Prelude.{◌≡◌, ◌<◌, ℕ, false, length};
ghost use Rattle.co_object.specs.Journal.{scanner};
ghost use Rattle.co_object.specs.declared.op.CallOp.TheVariants.{Plain};
ghost use Rattle.co_object.specs.declared.spec.LockUse.TheVariants.{Free};
ghost use Rattle.co_desk.specs.Call.{NamesCpu};
ghost use Rattle.co_desk.specs.Params.{actors_of, spec_at};
ghost use Rattle.co_desk.specs.Services.{IsFree};
ghost use Rattle.co_desk.specs.Views.{AreOf};
ghost use Rattle.co_service.specs.Booted.{AreBooted};
ghost use Rattle.service_cases.specs.Scenes.{IsScene};

use super::acts::{keep_begun, tick};
use super::cast::leave_two;
use super::notes::{Lane, Row, Told};
use super::stage::{keep_all, seconds};
use co_object::{CallOp, Note, Place, PlainOp, Reply};
use co_sbt::{Sbt, Seq};
use co_service::{Finished, Name, Passes, Popped, Service};
use std::process::Abort;
use std::sync::Wait;

/// A stop that takes an arming away.
const STOPPED: Reply = Reply::Stopped {
    code: 1,
    off: Some(0),
};

/// The client's call on callout 0, which needs no hold. It tells this reply.
fn ask<N: Name, R: Wait + Abort>(
    rt: &R,
    service: &Service<N>,
    log: &mut Vec<Note>,
    passes: &mut Passes,
    act: u64,
    op: PlainOp,
    reply: Reply,
)
    requires free { (k : ℕ) → (spec_at service.now k).lock ≡ Free }
    requires passes { AreOf N.name service.now passes.old }
    requires callout { 0 < length service.now.specs }
    requires cpu { NamesCpu service.now.cpus (Plain op) }
    ensures of { AreOf N.name service.now passes.new }
{
    let actor = passes.actor();
    let op = CallOp::Plain(op);
    let mut told = co_service::Told::none();
    service.call_into(rt, passes, act, 0, &op, None, &mut told);
    assert!(rt; told.reply() == reply);
    keep_all(rt, log, told.answer(actor, act, 0, &op).notes);
}

/// The client's reset of callout 0 to function 0, at home, in this act, which makes the arming of that number.
fn arm<N: Name, R: Wait + Abort>(
    rt: &R,
    service: &Service<N>,
    log: &mut Vec<Note>,
    passes: &mut Passes,
    act: u64,
    due: Sbt,
)
    requires free { (k : ℕ) → (spec_at service.now k).lock ≡ Free }
    requires passes { AreOf N.name service.now passes.old }
    requires callout { 0 < length service.now.specs }
    ensures of { AreOf N.name service.now passes.new }
{
    let op = PlainOp::Reset {
        due,
        prec: Sbt::zero(),
        func: 0,
        arg: 0,
        cpu: None,
    };
    let reply = Reply::Armed {
        code: 0,
        n: act,
        cpu: 0,
        off: None,
    };
    ask(rt, service, log, passes, act, op, reply);
}

/// The CPU serves the callout, which has come due: its function is called and returns, and nothing more is there.
fn turn<N: Name, R: Wait + Abort>(
    rt: &R,
    service: &Service<N>,
    log: &mut Vec<Note>,
    passes: &mut Passes,
)
    requires cpu { 0 < service.now.cpus }
    requires passes { AreOf N.name service.now passes.old }
    requires scanner { passes.old.actor ≡ scanner (actors_of service.now) 0 }
    requires free { IsFree false passes.old 0 }
{
    tick(rt, service, log, passes, 0, seconds(1));
    let actor = passes.actor();
    let popped = service.pop(rt, passes, 0, 0, 1, false);
    keep_begun(rt, log, popped.answer(actor, 0, 0, false));
    let mut told = Finished::none();
    service.end_into(rt, passes, 0, 0, false, &mut told);
    keep_all(rt, log, told.answer(actor, 0).notes);
    let popped = service.pop(rt, passes, 0, 0, 1, false);
    assert!(rt; matches!(popped, Popped::Empty { pop: 4 }));
}

/// The client arms the callout and the CPU serves it. The client arms it once more, and takes the arming away.
pub(super) fn play<N: Name, R: Wait + Abort>(
    rt: &R,
    service: &Service<N>,
    log: &mut Vec<Note>,
    passes: Seq<Passes>,
)
    requires scene { IsScene 1 1 1 2 service.now }
    requires passes { AreBooted N.name service.now passes }
{
    let (mut client, mut cpu) = leave_two(service, passes);
    arm(rt, service, log, &mut client, 0, seconds(1));
    turn(rt, service, log, &mut cpu);
    arm(rt, service, log, &mut client, 1, seconds(2));
    ask(rt, service, log, &mut client, 2, PlainOp::Stop, STOPPED);
    drop(client);
    drop(cpu);
}

pub(super) static NOTES: [Row; 11] = [
    (Place::Timer(0), 0, 0, 0, Told::Armed(1, 0, None, 0, 0)),
    (Place::Cpu(0), 0, 0, 0, Told::Inserted(0, 0, 1)),
    (Place::Cpu(0), 1, 1, 0, Told::Scanned(1, 1)),
    (Place::Cpu(0), 2, 1, 0, Told::Popped(Lane::Own, 0, 0, 1)),
    (Place::Timer(0), 1, 1, 0, Told::Picked(0, 0, 1, Some(0))),
    (Place::Timer(0), 2, 1, 0, Told::Ended(0, 0, None)),
    (Place::Cpu(0), 3, 1, 0, Told::Freed(Lane::Own)),
    (Place::Timer(0), 3, 0, 1, Told::Armed(2, 0, None, 1, 0)),
    (Place::Cpu(0), 5, 0, 1, Told::Inserted(0, 1, 2)),
    (Place::Cpu(0), 6, 0, 2, Told::Removed(0)),
    (Place::Timer(0), 4, 0, 2, Told::Stopped(1, Some(0))),
];
