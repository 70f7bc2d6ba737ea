//! The next step of an actor.
ghost use Rattle.co_program.specs.Action.{Asks};
ghost use Rattle.co_run.specs.Ready.{HasStepped, HasTried, IsDue, IsReady};

use crate::actor::Actor;
use crate::book::Book;
use crate::shared::Shared;
use co_hand::Gate;
use co_object::Op;
use co_program::{Action, Asked, Cursor, SilentStep, Stage, action_for};
use co_sbt::NoMemory;
use co_service::Name;
use std::sync::Wait;

/// The actor goes through the gate before each act, those of functions included. The gate changes no value, so that no clause
/// can speak of it: a test has to count its calls.
fn stand<G: Gate>(gate: &G, actor: u32, cursor: &Cursor, next: &Action) {
    if let Action::Nothing | Action::Silent(SilentStep::Ends) = next {
        return;
    }
    if let Stage::Ready | Stage::Firing(_, _) | Stage::Drained(_, _) = cursor.stage {
        gate.at(actor, cursor.act);
    }
}

impl<'a, B: Book> Actor<'a, B> {
    /// What the actor asks next, with the room for its notes. After `NoMemory` nothing is asked.
    fn ask<N: Name, G: Gate, R: Wait>(
        &mut self,
        rt: &R,
        shared: &Shared<'_, N, G>,
        act: u64,
        asked: &Asked,
    ) -> Result<(), NoMemory>
        requires due { IsDue B.notes B.spare shared.now.script.now shared.now.longest N.name self.old (Asks act asked.now) }
        ensures { HasTried B.notes B.spare shared.now.script.now shared.now.longest N.name self.old self.new result }
    {
        self.make_ready(shared, act, asked)?;
        match asked {
            Asked::Itself(kind) => self.refuse(shared, act, *kind),
            Asked::Callout {
                i,
                op: Op::Call(op),
            } => self.call(rt, shared, act, *i, op),
            Asked::Callout { i, op: Op::Run(op) } => self.ask_run(rt, shared, act, *i, op),
            Asked::Queue { cpu, op } => self.ask_queue(rt, shared, act, *cpu, op),
        }
        Ok(())
    }

    /// The next step of the program. The answer is whether there is none. After `NoMemory` the actor is where it was.
    pub(crate) fn step<N: Name, G: Gate, R: Wait + Sync>(
        &mut self,
        rt: &R,
        shared: &Shared<'a, N, G>,
    ) -> Result<bool, NoMemory>
        requires ready { IsReady B.notes B.spare shared.now.script.now shared.now.longest N.name self.old }
        ensures { HasStepped B.notes B.spare shared.now.script.now shared.now.longest N.name self.old self.new result }
    {
        let mut next = Action::Nothing;
        let _task = self.cursor.task;
        action_for(shared.script, self.number, &self.cursor, &mut next);
        stand(shared.gate, self.number, &self.cursor, &next);
        match &next {
            Action::Nothing => Ok(true),
            Action::Silent(to) => {
                self.pass(shared, to);
                Ok(false)
            }
            Action::Take { held, to } => {
                self.take(rt, shared, held, to);
                Ok(false)
            }
            Action::Asks { act, asked } => match self.ask(rt, shared, *act, asked) {
                Ok(()) => Ok(false),
                Err(refused) => Err(refused),
            },
        }
    }
}
