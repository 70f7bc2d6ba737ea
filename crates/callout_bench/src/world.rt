//! A script's world, stepped one actor after the other: a step that is refused memory is made again.
ghost use Rattle.std.specs.Prelude.{◌≡◌, ◌<◌};
ghost use Rattle.co_program.specs.Actors.{actor_count};
ghost use Rattle.co_program.specs.Scripts.{IsScript};

use crate::walk::count_notes;
use co_core::{Turn, World};
use co_program::{Script, actor_count};
use co_sbt::NoMemory;
use std::alloc::Global;
use std::sync::Wait;

/// How often a step is tried before the walk is given up.
const TRIES: u32 = 3;

/// What came of a walk.
#[derive(Clone, Copy)]
pub struct Walked {
    /// How many notes the steps made.
    pub notes: u64,
    /// How many steps were refused memory.
    pub refused: u64,
}

/// One step of an actor. After a refusal the world is as it was, so the very same step is tried again.
fn step(world: &mut World<'_>, actor: u32, refused: &mut u64) -> Result<Turn, NoMemory>
    requires { actor < actor_count world.old.script }
    ensures { world.new.script ≡ world.old.script }
{
    for _ in 0..TRIES {
        match world.step(actor) {
            Ok(turn) => return Ok(turn),
            Err(NoMemory {}) => *refused = refused.saturating_add(1),
        }
    }
    Err(NoMemory {})
}

/// A round: each actor steps once. The answer is whether all had finished.
fn make_round(script: &Script, world: &mut World<'_>, refused: &mut u64) -> Result<bool, NoMemory>
    requires script { IsScript script.now }
    requires world { world.old.script ≡ script.now }
    ensures { world.new.script ≡ script.now }
{
    let mut finished = true;
    for actor in 0..actor_count(script) {
        let turn = step(world, actor, refused)?;
        finished = finished && turn == Turn::Finished;
    }
    Ok(finished)
}

/// Steps the world by the script's turns, and then by round robin until all have finished.
fn finish<R: Wait>(rt: &R, script: &Script, world: &mut World<'_>) -> Result<Walked, NoMemory>
    requires script { IsScript script.now }
    requires world { world.old.script ≡ script.now }
{
    let mut refused = 0;
    for actor in script.turns.as_slice() {
        step(world, *actor, &mut refused)?;
    }
    for _ in rt.forever() {
        if make_round(script, world, &mut refused)? {
            break;
        }
    }
    Ok(Walked {
        notes: count_notes(world.lists()),
        refused,
    })
}

/// Steps the script's world by its turns, and then by round robin until all have finished. `NoMemory` where a step was
/// refused memory three times, or the world at its boot.
pub fn walk<R: Wait>(rt: &R, alloc: Global, script: &Script) -> Result<Walked, NoMemory>
    requires { IsScript script.now }
{
    let mut world = World::boot(alloc, script)?;
    finish(rt, script, &mut world)
}
