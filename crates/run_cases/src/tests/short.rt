//! Runs in which a CPU is refused the room for its notes.
ghost use Rattle.run_cases.specs.Scenes.{CanRun};

use super::running::{is_run_legal, script_of};
use super::waits::run_waiting;
use co_program::Script;
use std::alloc::Global;
use std::process::Abort;
use std::sync::Wait;
use std::thread::Threads;

/// Two CPUs and two clients, each with a callout of its own. One of the CPUs has a tick.
const THREADS: &str = "callout 1
cpus 2
funcs 1
timer 0 mpsafe
timer 1 mpsafe
func 0
pending me
client 0
reset 0 =1 f0 a0
pending 0
client 1
reset 1 =1 f0 a1 cpu 1
pending 1
cpu 0
tick 1
";

/// How often the first CPU, which is the third actor, asks for room at most.
const MOST: u64 = 100;

/// The number of the first reserve that the CPU doesn't make, and whether the report of that run is legal. Each run before it
/// is refused a reserve.
fn first_whole<R: Threads + Wait + Sync + Abort>(
    rt: &R,
    alloc: Global,
    script: &Script,
) -> Option<(u64, bool)>
    requires { CanRun script.now }
{
    for refused in 0..MOST {
        if let Ok(ran) = run_waiting(rt, alloc, script, &[], None, refused) {
            return Some((refused, is_run_legal(alloc, script, &ran)));
        }
    }
    None
}

#[test]
fn each_refusal_ends_the_run(rt: HostRuntime) {
    let alloc = rt.alloc();
    let script = script_of(&rt, alloc, THREADS.as_bytes());
    let whole = first_whole(&rt, alloc, &script);
    drop(script);
    assert!(rt; matches!(whole, Some((2..=3, true))));
}
