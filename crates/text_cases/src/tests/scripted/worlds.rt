//! Worlds of worked scripts, stepped by hand.
ghost use Rattle.std.specs.Prelude.{◌≡◌};
ghost use Rattle.co_program.specs.Scripts.{IsScript};

use super::IN_TRANSIT;
use crate::tests::notes::{Callout, Queue, Row, Said, note_of};
use crate::tests::{is_right, script_of};
use co_core::{Turn, Why, World};
use co_object::Note;
use co_program::{Script, actor_count};
use std::alloc::Global;
use std::process::Abort;

/// A client arms the callout under its lock and stops it while the CPU's service waits for the lock.
const CANCELLED_SCRIPT: &str = "callout 1
funcs 1
lock 0 mtx
timer 0 mtx 0
client 0
lock 0
reset 0 =1 f0 a0
stop 0
cpu 0
tick 1
";

/// A client drains the callout while it is serviced, and another tries to arm it meanwhile.
const DRAINED_SCRIPT: &str = "callout 1
funcs 1
timer 0 mpsafe
client 0
reset 0 =1 f0 a0
drain 0
reset 0 =3 f0 a2
client 1
reset 0 =2 f0 a1
cpu 0
tick 1
";

/// A client drains the callout while its service waits for the lock that another client has taken.
const BEHIND_CANCELLED_SCRIPT: &str = "callout 1
funcs 1
lock 0 mtx
timer 0 mtx 0
client 0
lock 0
reset 0 =1 f0 a0
unlock
drain 0
client 1
lock 0
stop 0
cpu 0
tick 1
";

/// A direct callout and another one, which the CPU services only after its interrupt's tick.
const SOFT_FIRST_SCRIPT: &str = "callout 2
funcs 1
timer 0 mpsafe direct
timer 1 mpsafe
client 0
reset 0 =1 f0 a0
reset 1 =1 f0 a1
cpu 0
tick 1
";

/// A run of a script by hand, and what one actor is told in it.
struct Run {
    name: &'static str,
    script: &'static str,
    /// Who steps, one after the other, and what the step comes to.
    turns: &'static [(u32, Turn)],
    actor: u32,
    /// How many notes the actor then has.
    count: usize,
    /// One of them, and how many stand before it.
    note: Option<(usize, Row)>,
}

const CANCELLED: [(u32, Turn); 15] = [
    (0, Turn::Notes(0)),
    (0, Turn::Notes(2)),
    (1, Turn::Notes(1)),
    (1, Turn::Notes(2)),
    (1, Turn::Blocked(Why::Lock(0))),
    (0, Turn::Notes(1)),
    (1, Turn::Blocked(Why::Lock(0))),
    (0, Turn::Notes(0)),
    (0, Turn::Finished),
    (1, Turn::Notes(0)),
    (1, Turn::Notes(1)),
    (1, Turn::Notes(0)),
    (1, Turn::Notes(2)),
    (1, Turn::Notes(1)),
    (1, Turn::Finished),
];

const MOVING: [(u32, Turn); 8] = [
    (0, Turn::Notes(1)),
    (1, Turn::Blocked(Why::Moving(0))),
    (0, Turn::Notes(1)),
    (1, Turn::Notes(2)),
    (0, Turn::Finished),
    (1, Turn::Finished),
    (2, Turn::Finished),
    (3, Turn::Finished),
];

const DRAINED: [(u32, Turn); 13] = [
    (0, Turn::Notes(2)),
    (2, Turn::Notes(1)),
    (2, Turn::Notes(2)),
    (0, Turn::Notes(1)),
    (0, Turn::Blocked(Why::Serviced(0))),
    (1, Turn::Notes(1)),
    (2, Turn::Notes(2)),
    (0, Turn::Notes(1)),
    (0, Turn::Notes(2)),
    (0, Turn::Finished),
    (1, Turn::Finished),
    (2, Turn::Notes(1)),
    (2, Turn::Finished),
];

const BEHIND_CANCELLED: [(u32, Turn); 8] = [
    (0, Turn::Notes(0)),
    (0, Turn::Notes(2)),
    (0, Turn::Notes(0)),
    (2, Turn::Notes(1)),
    (2, Turn::Notes(2)),
    (1, Turn::Notes(0)),
    (0, Turn::Notes(1)),
    (2, Turn::Blocked(Why::Lock(0))),
];

const SOFT_FIRST: [(u32, Turn); 1] = [(1, Turn::Blocked(Why::Tick(0)))];

static RUNS: [Run; 9] = [
    Run {
        name: "cancelled while it waits",
        script: CANCELLED_SCRIPT,
        turns: &CANCELLED,
        actor: 0,
        count: 3,
        note: Some((2, (2, 0, 2, Said::Of(Callout::Stopped(1, None))))),
    },
    Run {
        name: "the CPU that finds it cancelled",
        script: CANCELLED_SCRIPT,
        turns: &CANCELLED,
        actor: 1,
        count: 7,
        note: None,
    },
    Run {
        name: "moving",
        script: IN_TRANSIT,
        turns: &MOVING,
        actor: 0,
        count: 2,
        note: None,
    },
    Run {
        name: "removed where it came to",
        script: IN_TRANSIT,
        turns: &MOVING,
        actor: 1,
        count: 2,
        note: Some((0, (1, 1, 0, Said::At(1, Queue::Removed)))),
    },
    Run {
        name: "stopped where it came to",
        script: IN_TRANSIT,
        turns: &MOVING,
        actor: 1,
        count: 2,
        note: Some((1, (1, 1, 0, Said::Of(Callout::Stopped(1, Some(1)))))),
    },
    Run {
        name: "drain during a service",
        script: DRAINED_SCRIPT,
        turns: &DRAINED,
        actor: 0,
        count: 6,
        note: Some((2, (2, 0, 1, Said::Of(Callout::Waits)))),
    },
    Run {
        name: "drain against reset",
        script: DRAINED_SCRIPT,
        turns: &DRAINED,
        actor: 0,
        count: 6,
        note: Some((3, (5, 0, 1, Said::Of(Callout::Drained(-1))))),
    },
    Run {
        name: "drain behind a cancelled call",
        script: BEHIND_CANCELLED_SCRIPT,
        turns: &BEHIND_CANCELLED,
        actor: 0,
        count: 3,
        note: None,
    },
    Run {
        name: "soft before its tick",
        script: SOFT_FIRST_SCRIPT,
        turns: &SOFT_FIRST,
        actor: 0,
        count: 0,
        note: None,
    },
];

/// Whether the actors can step in this order, with these answers.
fn goes(script: &Script, world: &mut World, turns: &[(u32, Turn)]) -> bool
    requires world { world.old.script ≡ script.now }
    requires script { IsScript script.now }
{
    for (actor, turn) in turns {
        if *actor >= actor_count(script) || world.step(*actor) != Ok(*turn) {
            return false;
        }
    }
    true
}

/// Whether the actor's note stands in the list behind as many others, where one is wanted.
fn has(list: &[Note], note: &Option<(usize, Row)>) -> bool {
    match note {
        Some((at, row)) => list.get(*at) == Some(&note_of(row)),
        None => true,
    }
}

/// Whether the run's actor has as many notes as it has to, and the one that is wanted.
fn is_told(world: &World<'_>, run: &Run) -> bool {
    match world.lists().as_slice().get(run.actor as usize) {
        Some(list) => {
            let notes = list.as_slice();
            notes.len() == run.count && has(notes, &run.note)
        }
        None => false,
    }
}

/// Whether a world of the script goes as the run does.
fn is_stepped<R: Abort>(rt: &R, alloc: Global, script: &Script, run: &Run) -> bool
    requires { IsScript script.now }
{
    let mut world = World::boot(alloc, script).expect(rt, "no memory");
    goes(script, &mut world, run.turns) && is_told(&world, run)
}

/// Whether the run's text is a script that goes so.
fn is_run<R: Abort>(rt: &R, alloc: Global, run: &Run) -> bool {
    let script = script_of(rt, alloc, run.script.as_bytes());
    let right = is_stepped(rt, alloc, &script, run);
    drop(script);
    right
}

#[test]
fn worlds_go_by_hand(rt: HostRuntime) {
    for run in &RUNS {
        is_right(&rt, run.name, is_run(&rt, rt.alloc(), run));
    }
}
