//! Who may make which entry.
ghost use Rattle.std.specs.Prelude.{◌≡◌, ◌≤◌, length};
ghost use Rattle.co_object.specs.History.{cpu_of};
ghost use Rattle.co_program.specs.Runs.{actors_of};
ghost use Rattle.co_check.specs.Replay.{may_serve, may_work};

use co_object::{Op, QOp, RunOp, Spec};
use co_program::{Script, cpu_actor, interrupt_actor, scanner, server};

/// The CPU of a service.
fn cpu_of(op: &RunOp) -> u32
    ensures { result ≡ cpu_of op.now }
{
    match *op {
        RunOp::Pick { cpu, .. } => cpu,
        RunOp::Begin { cpu, .. } => cpu,
        RunOp::End { cpu, .. } => cpu,
    }
}

/// Whether the actor may make this operation on a callout.
pub(crate) fn may_serve(script: &Script, spec: &Spec, actor: u32, op: &Op) -> bool
    requires { length script.now.clients ≤ 16 }
    ensures { result ≡ may_serve (actors_of script.now) spec.now actor op.now }
{
    match op {
        Op::Call(_) => true,
        Op::Run(op) => u64::from(actor) == server(script, spec, cpu_of(op)),
    }
}

/// Whether the actor may make this operation on a CPU's queue.
pub(crate) fn may_work(script: &Script, cpu: u32, actor: u32, op: &QOp) -> bool
    requires { length script.now.clients ≤ 16 }
    ensures { result ≡ may_work (actors_of script.now) cpu actor op.now }
{
    let actor = u64::from(actor);
    match op {
        QOp::Insert { .. } | QOp::Remove { .. } => true,
        QOp::Scan { .. } => actor == scanner(script, cpu),
        QOp::Pop | QOp::Free => actor == cpu_actor(script, cpu),
        QOp::PopDirect | QOp::FreeDirect => actor == interrupt_actor(script, cpu),
    }
}
