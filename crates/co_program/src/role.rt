//! The actors of a script, by number: who each of them is, and on which CPU it acts (our own order).
ghost use Rattle.std.specs.Prelude.{◌≡◌, ◌≤◌, length};
ghost use Rattle.co_object.specs.Actors.{cpu_actor, interrupt_actor};
ghost use Rattle.co_object.specs.History.{server};
ghost use Rattle.co_object.specs.Journal.{scanner};
ghost use Rattle.co_program.specs.Actors.{actor_count, cpu_of, role_of};
ghost use Rattle.co_program.specs.Runs.{actors_of};
ghost use Rattle.co_program.specs.Scripts.{IsScript};

use crate::script::Script;
use co_object::Spec;

/// Who an actor is.
#[derive(Clone, Copy, PartialEq, Eq)]
pub enum Role {
    /// The client of this number.
    Client(u32),
    /// The CPU of this number.
    Cpu(u32),
    /// The interrupt of this CPU, in version 2.
    Interrupt(u32),
}

/// How many actors the script has: its clients, its CPUs, and in version 2 an interrupt for each CPU.
pub fn actor_count(script: &Script) -> u32
    requires { IsScript script.now }
    ensures { result ≡ actor_count script.now }
{
    let clients = script.clients.as_slice().len() as u32;
    if script.version == 2 {
        clients + 2 * script.cpus
    } else {
        clients + script.cpus
    }
}

/// Who the actor of this number is: first come the clients, then the CPUs, then the interrupts. From `actor_count` on it
/// is an interrupt that the script doesn't have.
pub fn role_of(script: &Script, actor: u32) -> Role
    ensures { result ≡ role_of script.now actor }
{
    let clients = script.clients.as_slice().len();
    if (actor as usize) < clients {
        return Role::Client(actor);
    }
    let after = actor - clients as u32;
    if after < script.cpus {
        Role::Cpu(after)
    } else {
        Role::Interrupt(after - script.cpus)
    }
}

/// The CPU where a role acts: its own, or for a client that of the client's number modulo the number of CPUs.
pub fn cpu_of(script: &Script, role: Role) -> u32
    requires { 1 ≤ script.now.cpus }
    ensures { result ≡ cpu_of script.now role }
{
    match role {
        Role::Client(client) => client % script.cpus,
        Role::Cpu(cpu) => cpu,
        Role::Interrupt(cpu) => cpu,
    }
}

/// The number of a CPU's actor. Where the script has no such CPU it is no CPU's.
pub fn cpu_actor(script: &Script, cpu: u32) -> u64
    requires { length script.now.clients ≤ 16 }
    ensures { result ≡ cpu_actor (actors_of script.now) cpu }
{
    script.clients.as_slice().len() as u64 + u64::from(cpu)
}

/// The number of the actor of a CPU's interrupt. In version 1, and where the script has no such CPU, no actor has it.
pub fn interrupt_actor(script: &Script, cpu: u32) -> u64
    requires { length script.now.clients ≤ 16 }
    ensures { result ≡ interrupt_actor (actors_of script.now) cpu }
{
    script.clients.as_slice().len() as u64 + u64::from(script.cpus) + u64::from(cpu)
}

/// The number of the actor that makes a CPU's scans: in version 1 the CPU's own, and from version 2 on its interrupt's.
pub fn scanner(script: &Script, cpu: u32) -> u64
    requires { length script.now.clients ≤ 16 }
    ensures { result ≡ scanner (actors_of script.now) cpu }
{
    if script.version == 1 {
        cpu_actor(script, cpu)
    } else {
        interrupt_actor(script, cpu)
    }
}

/// The number of the actor that services a callout on a CPU: the interrupt's where the callout is direct, else the CPU's
/// own.
pub fn server(script: &Script, spec: &Spec, cpu: u32) -> u64
    requires { length script.now.clients ≤ 16 }
    ensures { result ≡ server (actors_of script.now) spec.now cpu }
{
    if spec.direct {
        interrupt_actor(script, cpu)
    } else {
        cpu_actor(script, cpu)
    }
}
