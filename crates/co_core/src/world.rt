//! The core as a state machine: a script's callouts, CPUs and actors between two steps.
ghost use Rattle.std.specs.Prelude.{◌≡◌, ◌<◌, OnOk, OnErr, IfOk};
ghost use Rattle.co_program.specs.Actors.{actor_count};
ghost use Rattle.co_program.specs.Scripts.{IsScript};
ghost use Rattle.co_core.specs.Shows.{Shows};
ghost use Rattle.co_world.specs.SoFar.{IsRunSoFar};
ghost use Rattle.co_world.specs.Step.{step, turn_of};
ghost use Rattle.co_world.specs.World.{World as PlainWorld, lists_of, open_world};

use crate::engine::Engine;
use crate::hand::{empty_lists, put_back, take_out};
use co_object::Lists;
use co_program::{Action, Script, actor_count};
use co_sbt::NoMemory;
use co_world::Turn;
use std::alloc::Global;
use std::marker::Model;

/// A script's callouts, CPUs and actors between two steps. Whatever order its actors step in, it keeps that
///
/// - each callout's record is in the wheel of exactly one CPU, or with the one actor that is moving it there;
/// - each callout is in at most one service, that of a CPU or of its interrupt;
/// - the wheels have the callouts' states and show the CPUs' queues of a plain world that some schedule reaches.
///
/// Contracts see which plain worlds it stands for. callout(9) allows every interleaving of its callers and of the softclock
/// threads; how they are cut into steps is our own decision.
#[derive(Drop)]
pub struct World<'a> {
    alloc: Global,
    script: &'a Script,
    engine: Engine,
    /// By actor: its notes.
    lists: Lists,
}

impl<'a> Model for World<'a> {
    ghost use Rattle.co_core.specs.Seen.{Seen};

    ghost Value = { Seen };

    ghost use Rattle.co_core.specs.Shows.{IsWorld};
    ghost use Rattle.co_core.specs.Written.{with_lists};

    ghost view = { λ x. record { script = x.script.now; ledger = with_lists x.engine.ledger x.lists; depot = x.engine.depot } };

    ghost invariant = { λ x. IsWorld x.script.now (with_lists x.engine.ledger x.lists) x.engine.depot };
}

impl<'a> World<'a> {
    /// The world before the first step: every record is at CPU 0, no lock is held, and nothing has been noted. Fails for want
    /// of memory alone.
    pub fn boot(alloc: Global, script: &'a Script) -> Result<World<'a>, NoMemory>
        requires { IsScript script.now }
        ensures script { IfOk result (λ world. world.script ≡ script.now) }
        ensures opens { IfOk result (λ world. Shows world (open_world script.now)) }
    {
        let lists = empty_lists(alloc, actor_count(script) as usize)?;
        let engine = Engine::boot(alloc, script)?;
        Ok(World {
            alloc,
            script,
            engine,
            lists,
        })
    }

    /// One step of an actor, by its number: the clients come first, then the CPUs, then in version 2 their interrupts. It
    /// answers how many notes the step made, or why it has to wait, or that the actor's program has ended; the last two change
    /// nothing. After `NoMemory` the world is as it was.
    pub fn step(&mut self, actor: u32) -> Result<Turn, NoMemory>
        requires { actor < actor_count self.old.script }
        ensures stands { OnOk result ((w : PlainWorld) → Shows self.old w → Shows self.new (step self.old.script w actor)) }
        ensures turn { IfOk result (λ turn. (w : PlainWorld) → Shows self.old w → turn ≡ turn_of self.old.script w actor) }
        ensures err { OnErr result (self.new ≡ self.old) }
        ensures script { self.new.script ≡ self.old.script }
    {
        if self.engine.is_full() {
            return Err(NoMemory {});
        }
        let mut hand = take_out(self.alloc, &mut self.lists, actor)?;
        let mut action = Action::Nothing;
        let turn = self
            .engine
            .step(self.script, actor, &mut hand, &mut action)?;
        put_back(&mut self.lists, hand);
        Ok(turn)
    }

    /// The notes so far: a list for each actor, by its number. The positions of a callout's notes count in the order of the
    /// steps, and so do a CPU's and an actor's own.
    pub fn lists(&self) -> &Lists
        ensures lists { (w : PlainWorld) → Shows self.now w → result.now ≡ lists_of self.now.script w }
        ensures stands { (w : PlainWorld) × Shows self.now w }
        ensures so_far { IsRunSoFar self.now.script result.now }
    {
        &self.lists
    }
}
