//! The places of a script, by number.
ghost use Rattle.std.specs.Prelude.{◌≡◌, ◌<◌, ◌^◌};
ghost use Rattle.co_program.specs.Places.{place_count, place_exists, place_index};
ghost use Rattle.co_program.specs.Scripts.{IsScript};

use crate::role::actor_count;
use crate::script::Script;
use co_object::Place;

/// Whether the script has this callout, this CPU or this actor.
pub fn place_exists(script: &Script, place: Place) -> bool
    requires { IsScript script.now }
    ensures { result ≡ place_exists script.now place }
{
    match place {
        Place::Timer(timer) => (timer as usize) < script.timers.as_slice().len(),
        Place::Cpu(cpu) => cpu < script.cpus,
        Place::Actor(actor) => actor < actor_count(script),
    }
}

/// The number of a place among those of the script, counted from 0: first come the callouts, then the CPUs, then the
/// actors. Where the script has no such place it may be another one's number.
pub fn place_index(script: &Script, place: Place) -> usize
    requires { place_index script.now place < 2 ^ 64 }
    ensures { result ≡ place_index script.now place }
{
    let timers = script.timers.as_slice().len();
    match place {
        Place::Timer(timer) => timer as usize,
        Place::Cpu(cpu) => timers + cpu as usize,
        Place::Actor(actor) => timers + script.cpus as usize + actor as usize,
    }
}

/// How many places the script has: its callouts, its CPUs and its actors.
pub fn place_count(script: &Script) -> usize
    requires { IsScript script.now }
    ensures { result ≡ place_count script.now }
{
    script.timers.as_slice().len() + script.cpus as usize + actor_count(script) as usize
}
