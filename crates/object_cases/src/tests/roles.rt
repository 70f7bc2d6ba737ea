//! Who the actors of a script are, and what the first of them does.
ghost use Rattle.std.specs.Prelude.{◌≤◌, false};
ghost use Rattle.co_program.specs.Scripts.{IsScript};

use super::functions::{spec_of, worked_script};
use co_object::{LockUse, QOp};
use co_program::{
    Action, Asked, Cursor, Role, Script, action_for, actor_count, cpu_of, role_of, scans_first,
};
use std::alloc::Global;
use std::process::Abort;

/// Whether the first actor of a script without ticks has nothing to do.
fn rests(script: &Script) -> bool
    requires { IsScript script.now }
{
    let start = Cursor::start();
    let mut next = Action::Asks {
        act: 0,
        asked: Asked::Queue {
            cpu: 0,
            op: QOp::Pop,
        },
    };
    action_for(script, 0, &start, &mut next);
    next == Action::Nothing && scans_first(script, 0, &start) == 0
}

/// Whether a script has one actor alone, a CPU.
fn is_of_one_cpu(script: &Script) -> bool
    requires { IsScript script.now }
{
    actor_count(script) == 1 && role_of(script, 0) == Role::Cpu(0)
}

/// The CPUs of the clients 2 and 3.
fn cpus_of_clients(script: &Script) -> [u32; 2]
    requires { 1 ≤ script.now.cpus }
{
    [
        cpu_of(script, Role::Client(2)),
        cpu_of(script, Role::Client(3)),
    ]
}

/// Whether a script of one CPU without ticks has this actor alone, and whether that has nothing to do; and how clients go round two
/// CPUs.
fn told<R: Abort>(rt: &R, alloc: Global) -> ([bool; 2], [u32; 2]) {
    let mut script = worked_script(rt, alloc, spec_of(LockUse::Free, false));
    let one = [is_of_one_cpu(&script), rests(&script)];
    script.cpus = 2;
    let clients = cpus_of_clients(&script);
    drop(script);
    (one, clients)
}

#[test]
fn actors_have_roles(rt: HostRuntime) {
    assert!(rt; told(&rt, rt.alloc()) == ([true; 2], [0, 1]));
}
