//! A direct callout is serviced by its CPU's interrupt.
ghost use Rattle.co_service.specs.Booted.{AreBooted};
ghost use Rattle.service_cases.specs.Scenes.{IsScene};

use super::acts::{keep_begun, keep_nothing, tick};
use super::notes::{Lane, Row, Told};
use super::stage::{arm, keep_all, seconds};
use co_object::{Note, Place};
use co_sbt::Seq;
use co_service::{Name, Passes, Service};
use std::process::Abort;
use std::sync::Wait;

/// The client arms the callout, and the interrupt serves it: its function is called and returns, and nothing more is there. The CPU does
/// nothing.
pub(super) fn play<N: Name, R: Wait + Abort>(
    rt: &R,
    service: &Service<N>,
    log: &mut Vec<Note>,
    passes: Seq<Passes>,
)
    requires scene { IsScene 2 1 1 3 service.now }
    requires passes { AreBooted N.name service.now passes }
{
    let mut all = passes.into_vec();
    let mut interrupt = service.leave_interrupt(&mut all, 0);
    drop(service.leave_cpu(&mut all, 0));
    let mut client = service.leave(&mut all, 0);
    drop(all);
    arm(rt, service, log, &mut client, 0, 0, seconds(1), 0, None);
    tick(rt, service, log, &mut interrupt, 0, seconds(1));
    let taken = service.next_direct(rt, &mut interrupt, 0, 0);
    keep_begun(rt, log, taken);
    let made = service.end_direct(rt, &mut interrupt, 0, 0);
    keep_all(rt, log, made.notes);
    let taken = service.next_direct(rt, &mut interrupt, 0, 0);
    keep_nothing(rt, log, taken);
    drop(client);
    drop(interrupt);
}

pub(super) static NOTES: [Row; 8] = [
    (Place::Timer(0), 0, 0, 0, Told::Armed(1, 0, None, 0, 0)),
    (Place::Cpu(0), 0, 0, 0, Told::Inserted(0, 0, 1)),
    (Place::Cpu(0), 1, 2, 0, Told::Scanned(1, 1)),
    (Place::Cpu(0), 2, 2, 0, Told::Popped(Lane::Direct, 0, 0, 1)),
    (Place::Timer(0), 1, 2, 0, Told::Picked(0, 0, 1, Some(0))),
    (Place::Timer(0), 2, 2, 0, Told::Ended(0, 0, None)),
    (Place::Cpu(0), 3, 2, 0, Told::Freed(Lane::Direct)),
    (Place::Cpu(0), 4, 2, 0, Told::Empty(Lane::Direct)),
];
