//! The call that an act asks for.
ghost use Rattle.std.specs.Prelude.{◌≡◌, ◌≤◌};
ghost use Rattle.co_program.specs.Calls.{callout_of_who, cpu_named, time_of_when, names_here, plain_op};

use crate::act::{Act, Scene, When, Where, Who};
use co_object::PlainOp;
use co_sbt::Sbt;

/// The callout and the operation of a call; None for an act that is no call, and for a drain.
pub fn call_of(act: &Act, hz: u32, scene: &Scene) -> Option<(u32, PlainOp)>
    requires low { 1 ≤ hz }
    requires high { hz ≤ 1000000 }
    ensures { result ≡ plain_op act.now hz scene.now }
{
    match *act {
        Act::Reset {
            who,
            when,
            func,
            arg,
            cpu,
            prec,
        } => {
            let due = due_of(scene, when);
            let cpu = cpu_named(scene, cpu);
            Some((
                callout_of(scene, who),
                PlainOp::Reset {
                    due,
                    prec,
                    func,
                    arg,
                    cpu,
                },
            ))
        }
        Act::Ticks {
            who,
            ticks,
            func,
            arg,
            cpu,
        } => {
            let due = scene.time.sat_add(Sbt::from_ticks(ticks, hz));
            let cpu = cpu_named(scene, cpu);
            Some((
                callout_of(scene, who),
                PlainOp::Reset {
                    due,
                    prec: Sbt::zero(),
                    func,
                    arg,
                    cpu,
                },
            ))
        }
        Act::Schedule {
            who,
            when,
            cpu,
            prec,
        } => {
            let due = due_of(scene, when);
            let cpu = cpu_named(scene, cpu);
            Some((callout_of(scene, who), PlainOp::Schedule { due, prec, cpu }))
        }
        Act::Stop(who) => Some((callout_of(scene, who), PlainOp::Stop)),
        Act::AsyncDrain { who, func } => Some((
            callout_of(scene, who),
            PlainOp::AsyncDrain { func },
        )),
        Act::Active(who) => Some((callout_of(scene, who), PlainOp::Active)),
        Act::Pending(who) => Some((callout_of(scene, who), PlainOp::Pending)),
        Act::Deactivate(who) => Some((callout_of(scene, who), PlainOp::Deactivate)),
        Act::Init(who) => Some((callout_of(scene, who), PlainOp::Init)),
        Act::Retire(who) => Some((callout_of(scene, who), PlainOp::Retire)),
        Act::Now(_)
        | Act::Lock(_)
        | Act::ReadLock(_)
        | Act::Unlock
        | Act::Drain(_)
        | Act::Tick(_) => None,
    }
}

/// Whether the act names the CPU where it is made.
pub(crate) fn names_here(act: &Act) -> bool
    ensures { result ≡ names_here act.now }
{
    match act {
        Act::Reset { cpu, .. } => matches!(cpu, Where::Here),
        Act::Ticks { cpu, .. } => matches!(cpu, Where::Here),
        Act::Schedule { cpu, .. } => matches!(cpu, Where::Here),
        _ => false,
    }
}

fn callout_of(scene: &Scene, who: Who) -> u32
    ensures { result ≡ callout_of_who scene.now who }
{
    match who {
        Who::Timer(i) => i,
        Who::Me => scene.me,
    }
}

fn due_of(scene: &Scene, when: When) -> Sbt
    ensures { result ≡ time_of_when scene.now when }
{
    match when {
        When::After(span) => scene.time.sat_add(span),
        When::At(time) => time,
    }
}

fn cpu_named(scene: &Scene, cpu: Where) -> Option<u32>
    ensures { result ≡ cpu_named scene.now cpu }
{
    match cpu {
        Where::Home => None,
        Where::Cpu(cpu) => Some(cpu),
        Where::Here => Some(scene.here),
    }
}
