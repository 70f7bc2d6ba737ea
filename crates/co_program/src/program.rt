//! The acts of programs and functions, by index.
ghost use Rattle.std.specs.Prelude.{◌≡◌, drop, length, slice_get};
ghost use Rattle.co_program.specs.Actors.{acts_at, program_of, softs};
ghost use Rattle.co_program.specs.Indexed.{function_acts_left, acts_of, is_soft};
ghost use Rattle.std.specs.Option.{option_map};

use crate::act::Act;
use crate::cursor::ActsLeft;
use crate::role::Role;
use crate::script::{Acts, Script};
use co_sbt::Seq;

/// One act of a program.
#[derive(Clone, Copy)]
pub enum Task {
    /// An act of the script.
    Does(Act),
    /// A CPU's j-th soft act, which runs what j + 1 ticks of its interrupt have expired.
    Soft(u32),
}

/// The acts of the role; a CPU that has soft acts has one for each of them.
pub(crate) fn acts_of(script: &Script, role: Role) -> &[Act]
    ensures { result.now ≡ acts_of script.now role }
{
    match role {
        Role::Client(client) => acts_at(&script.clients, client),
        Role::Cpu(cpu) => acts_at(&script.ticks, cpu),
        Role::Interrupt(cpu) => acts_at(&script.ticks, cpu),
    }
}

/// The role's acts are soft: they run what its interrupt has expired.
pub(crate) fn is_soft(script: &Script, role: Role) -> bool
    ensures { result ≡ is_soft script.now role }
{
    match role {
        Role::Client(_) => false,
        Role::Cpu(_) => script.version == 2,
        Role::Interrupt(_) => false,
    }
}

/// The next act of the role's program once so many are over.
pub(crate) fn task_after(script: &Script, role: Role, over: u32) -> Option<Task>
    ensures { result ≡ slice_get (drop over (program_of script.now role)) 0 }
{
    match role {
        Role::Client(client) => does(act_at(&script.clients, client, over)),
        Role::Cpu(cpu) => {
            if script.version == 2 {
                soft_at(act_count(&script.ticks, cpu), over)
            } else {
                does(act_at(&script.ticks, cpu, over))
            }
        }
        Role::Interrupt(cpu) => does(act_at(&script.ticks, cpu, over)),
    }
}

/// The next act of those of a function that are left.
pub(crate) fn next_of(script: &Script, left: ActsLeft) -> Option<Act>
    ensures { result ≡ slice_get (function_acts_left script.now left) 0 }
{
    act_at(&script.funcs, left.func, left.done)
}

/// The acts of the `i`-th list.
fn acts_at(lists: &Seq<Acts>, i: u32) -> &[Act]
    ensures { result.now ≡ acts_at lists.now i }
{
    match lists.as_slice().get(i as usize) {
        Some(acts) => acts.as_slice(),
        None => &[],
    }
}

/// The act at `index` of the `i`-th list.
fn act_at(lists: &Seq<Acts>, i: u32, index: u32) -> Option<Act>
    ensures { result ≡ slice_get (acts_at lists.now i) index }
{
    match lists.as_slice().get(i as usize) {
        Some(acts) => acts.as_slice().get(index as usize).copied(),
        None => None,
    }
}

/// How many acts the `i`-th list has.
fn act_count(lists: &Seq<Acts>, i: u32) -> usize
    ensures { result ≡ length (acts_at lists.now i) }
{
    match lists.as_slice().get(i as usize) {
        Some(acts) => acts.as_slice().len(),
        None => 0,
    }
}

fn does(act: Option<Act>) -> Option<Task>
    ensures { result ≡ option_map Task.Does act }
{
    match act {
        Some(act) => Some(Task::Does(act)),
        None => None,
    }
}

/// The soft act at `index`, of so many.
fn soft_at(count: usize, index: u32) -> Option<Task>
    ensures { result ≡ slice_get (softs 0 count) index }
{
    if (index as usize) < count {
        Some(Task::Soft(index))
    } else {
        None
    }
}
