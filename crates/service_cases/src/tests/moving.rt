//! A callout that is armed for another CPU while it is serviced moves when the service ends.
ghost use Rattle.std.specs.Prelude.{◌≡◌, ◌<◌, false};
ghost use Rattle.co_object.specs.Journal.{scanner};
ghost use Rattle.co_object.specs.Queue.{Due};
ghost use Rattle.co_desk.specs.Params.{actors_of};
ghost use Rattle.co_desk.specs.Services.{IsFree, IsServing};
ghost use Rattle.co_desk.specs.Serving.{Runs};
ghost use Rattle.co_desk.specs.Views.{AreOf};
ghost use Rattle.co_service.specs.Booted.{AreBooted};
ghost use Rattle.service_cases.specs.Scenes.{IsScene};

use super::acts::{finish, keep_begun, rest, tick};
use super::cast::leave_three;
use super::notes::{Lane, Row, Told};
use super::stage::{arm, seconds};
use co_object::{Note, Place};
use co_sbt::Seq;
use co_service::{Name, Passes, Service};
use std::process::Abort;
use std::sync::Wait;

/// A CPU's queue is scanned at a time in seconds, and the function of what has come due is called.
fn begin_turn<N: Name, R: Wait + Abort>(
    rt: &R,
    service: &Service<N>,
    log: &mut Vec<Note>,
    passes: &mut Passes,
    cpu: u32,
    at: i32,
)
    requires cpu { cpu < service.now.cpus }
    requires passes { AreOf N.name service.now passes.old }
    requires scanner { passes.old.actor ≡ scanner (actors_of service.now) cpu }
    requires free { IsFree false passes.old cpu }
    ensures of { AreOf N.name service.now passes.new }
    ensures serving { (d : Due) × IsServing false passes.new cpu d (Runs d.n) }
{
    tick(rt, service, log, passes, cpu, seconds(at));
    let taken = service.next(rt, passes, cpu, 0, 1);
    keep_begun(rt, log, taken);
}

/// The client arms the callout for the second CPU while the first one serves it, and then the second one serves it.
pub(super) fn play<N: Name, R: Wait + Abort>(
    rt: &R,
    service: &Service<N>,
    log: &mut Vec<Note>,
    passes: Seq<Passes>,
)
    requires scene { IsScene 1 2 1 3 service.now }
    requires passes { AreBooted N.name service.now passes }
{
    let (mut client, mut first, mut second) = leave_three(service, passes);
    arm(rt, service, log, &mut client, 0, 0, seconds(1), 0, None);
    begin_turn(rt, service, log, &mut first, 0, 1);
    arm(rt, service, log, &mut client, 1, 0, seconds(2), 1, Some(1));
    finish(rt, service, log, &mut first, 0);
    rest(rt, service, log, &mut first, 0);
    begin_turn(rt, service, log, &mut second, 1, 2);
    finish(rt, service, log, &mut second, 1);
    rest(rt, service, log, &mut second, 1);
    drop(client);
    drop(first);
    drop(second);
}

pub(super) static NOTES: [Row; 16] = [
    (Place::Timer(0), 0, 0, 0, Told::Armed(1, 0, None, 0, 0)),
    (Place::Cpu(0), 0, 0, 0, Told::Inserted(0, 0, 1)),
    (Place::Cpu(0), 1, 1, 0, Told::Scanned(1, 1)),
    (Place::Cpu(0), 2, 1, 0, Told::Popped(Lane::Own, 0, 0, 1)),
    (Place::Timer(0), 1, 1, 0, Told::Picked(0, 0, 1, Some(0))),
    (Place::Timer(0), 2, 0, 1, Told::Armed(2, 1, Some(1), 1, 1)),
    (Place::Timer(0), 3, 1, 0, Told::Ended(0, 0, Some((1, 1, 2)))),
    (Place::Cpu(0), 3, 1, 0, Told::Freed(Lane::Own)),
    (Place::Cpu(1), 0, 1, 0, Told::Inserted(0, 1, 2)),
    (Place::Cpu(0), 4, 1, 0, Told::Empty(Lane::Own)),
    (Place::Cpu(1), 1, 2, 0, Told::Scanned(2, 1)),
    (Place::Cpu(1), 2, 2, 0, Told::Popped(Lane::Own, 0, 1, 2)),
    (Place::Timer(0), 4, 2, 0, Told::Picked(1, 1, 2, Some(1))),
    (Place::Timer(0), 5, 2, 0, Told::Ended(1, 1, None)),
    (Place::Cpu(1), 3, 2, 0, Told::Freed(Lane::Own)),
    (Place::Cpu(1), 4, 2, 0, Told::Empty(Lane::Own)),
];
