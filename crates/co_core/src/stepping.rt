//! One step of one actor.
ghost use Rattle.std.specs.Prelude.{◌≤◌, ◌<◌, ◌^◌, IfOk, MatchBool};
ghost use Rattle.co_program.specs.Scripts.{IsScript};
ghost use Rattle.co_core.specs.Acting.{HasStepped, RunsActor, Stands};
ghost use Rattle.co_core.specs.Noting.{Listens};
ghost use Rattle.co_world.specs.World.{open_world};

use crate::depot::Depot;
use crate::engine::Engine;
use crate::ledger::Ledger;
use co_listener::Listener;
use co_program::{Action, Script, action_for};
use co_sbt::NoMemory;
use co_wheel::CallOut;
use co_world::Turn;
use std::alloc::Global;

impl Engine {
    /// Before the first step.
    pub(crate) fn boot(alloc: Global, script: &Script) -> Result<Engine, NoMemory>
        requires { IsScript script.now }
        ensures { IfOk result (λ engine. Stands script.now engine (open_world script.now)) }
    {
        let ledger = Ledger::boot(alloc, script)?;
        let depot = Depot::boot(alloc, script)?;
        Ok(Engine {
            ledger,
            depot,
            out: CallOut::none(),
        })
    }

    /// Whether there are more notes than fit into memory: then no step is made.
    pub(crate) fn is_full(&self) -> bool
        ensures { MatchBool result (2 ^ 63 ≤ self.now.ledger.made) (self.now.ledger.made < 2 ^ 63) }
    {
        self.ledger.is_full()
    }

    /// One step of an actor, of whose notes a listener is told. Inlined, as are the parts that every step goes through: they are
    /// short beside the cost of calling them.
    #[inline(always)]
    pub(crate) fn step<N: Listener>(
        &mut self,
        script: &Script,
        actor: u32,
        listener: &mut N,
        action: &mut Action,
    ) -> Result<Turn, NoMemory>
        requires runs { RunsActor script.now self.old actor }
        requires few { self.old.ledger.made < 2 ^ 63 }
        requires room { actor < N.actors listener.old }
        ensures stepped { IfOk result (λ turn. HasStepped script.now N.has actor turn self.old self.new listener.old listener.new) }
        ensures listens { Listens N.actors N.room 3 listener.old listener.new result }
    {
        let cursor = self.ledger.cursor(actor);
        // The checker knows the range of a number behind a reference once it is read.
        let _task = cursor.task;
        action_for(script, actor, cursor, action);
        if let Some(why) = self.blocked(script, actor, cursor, action) {
            return Ok(Turn::Blocked(why));
        }
        match *action {
            Action::Nothing => Ok(Turn::Finished),
            _ => {
                let count = self.act(script, actor, listener, action)?;
                Ok(Turn::Notes(count))
            }
        }
    }
}
