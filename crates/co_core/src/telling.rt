//! The walk of a script, its turns and then round robin until all have finished: told note by note.
ghost use Rattle.std.specs.Prelude.{◌≡◌, ℕ, ◌<◌, ◌≤◌, List, [], Bool, true, Some, None, get_or, OnOk, IfOk};
ghost use Rattle.co_listener.specs.MadeNotes.{MadeNote};
ghost use Rattle.co_program.specs.Actors.{actor_count};
ghost use Rattle.co_program.specs.Scripts.{IsScript};
ghost use Rattle.co_program.specs.declared.script.Script.{Script as ScriptOf};
ghost use Rattle.co_core.specs.Resting.{IsForgotten, IsKnown, RestsStill};
ghost use Rattle.co_core.specs.Stands.{ShowsBooked};
ghost use Rattle.co_world.specs.Step.{step, turn_of};
ghost use Rattle.co_core.specs.Acting.{Stands};
ghost use Rattle.co_core.specs.Telling.{TellsOn, GoesOnKnowing, HasAsked, IsTelling, IsToldTo, MayTell, MayTellStep};
ghost use Rattle.co_world.specs.Walk.{AllFinished, HasFinished, IsWalk, round, rounds, run};
ghost use Rattle.co_world.specs.World.{World as PlainWorld, open_world};

use crate::engine::Engine;
use crate::resting::{Known, Resting};
use co_listener::{KeptLists, Listener};
use co_object::Lists;
use co_program::{Action, Script, actor_count};
use co_sbt::NoMemory;
use co_world::Turn;
use std::alloc::Global;

/// The step was none, since the actor had finished.
fn is_finished(turn: Turn) -> bool
    ensures { result ≡ true → turn ≡ Turn.Finished }
{
    match turn {
        Turn::Finished => true,
        Turn::Notes(_) => false,
        Turn::Blocked(_) => false,
    }
}

/// Both are so. Where the second is known, as at the end of each way through a step, nothing is compared.
#[inline(always)]
fn both(before: bool, now: bool) -> bool
    ensures { result ≡ true → (before ≡ true) × (now ≡ true) }
{
    if now { before } else { false }
}

// The place where an action is put is handed on from step to step: to make it anew takes a few stores each time.

impl Engine {
    /// Whether it is known that a step of the actor would change nothing, and then whether the actor has finished. Else nothing
    /// is known of it from now on, since it is to be asked.
    #[inline(always)]
    fn still_rests(&self, resting: &mut Resting, actor: u32) -> Option<bool>
        requires { actor < 48 }
        ensures rests { (ended : Bool) → result ≡ Some ended → (s : ScriptOf) (w : PlainWorld) → ShowsBooked s self.now.ledger w → IsKnown s w resting.old → RestsStill s w actor ended }
        ensures same { (ended : Bool) → result ≡ Some ended → resting.new ≡ resting.old }
        ensures asked { result ≡ None → IsForgotten resting.old.known actor resting.new.known }
    {
        match resting.known(actor) {
            Known::Nothing => None,
            Known::Ended => Some(true),
            Known::Wants(held) => {
                if self.keeps_out(&held) {
                    return Some(false);
                }
                resting.forget(actor);
                None
            }
        }
    }

    /// One step of an actor, of whose notes the listener is told.
    #[inline(always)]
    fn tell_step<N: Listener>(
        &mut self,
        script: &Script,
        actor: u32,
        listener: &mut N,
        next: &mut Action,
    ) -> Result<Turn, NoMemory>
        requires { MayTellStep script.now self.old (N.actors listener.old) actor }
        ensures told { IsToldTo N.actors listener.old listener.new result ((w : PlainWorld) → Stands script.now self.old w → TellsOn script.now N.has self.new listener.old listener.new w (step script.now w actor)) }
        ensures turn { IfOk result (λ turn. (w : PlainWorld) → Stands script.now self.old w → turn ≡ turn_of script.now w actor) }
    {
        if self.is_full() {
            return Err(NoMemory {});
        }
        self.step(script, actor, listener, next)
    }

    /// One step of an actor, and what it tells of the actor. The answer is whether it has finished. Inlined, since a call of it
    /// takes a tenth of a step.
    #[inline(always)]
    fn tell_asked<N: Listener>(
        &mut self,
        script: &Script,
        actor: u32,
        resting: &mut Resting,
        listener: &mut N,
        next: &mut Action,
    ) -> Result<bool, NoMemory>
        requires may { MayTellStep script.now self.old (N.actors listener.old) actor }
        requires nothing { get_or resting.old.known actor Known.Nothing ≡ Known.Nothing }
        ensures { HasAsked script.now N.has N.actors self.old self.new listener.old listener.new resting.old resting.new result (λ w. step script.now w actor) (λ w. HasFinished script.now w actor) }
    {
        let turn = self.tell_step(script, actor, listener, next)?;
        let known = self.known_after(script, actor, turn);
        resting.learn(actor, known);
        Ok(is_finished(turn))
    }

    /// The same, unless the actor is known to have finished, or to wait for a lock that is held still: then a step changes
    /// nothing. Inlined, since most that are asked in a crowd wait.
    #[inline(always)]
    fn tell_unless_resting<N: Listener>(
        &mut self,
        script: &Script,
        actor: u32,
        resting: &mut Resting,
        listener: &mut N,
        next: &mut Action,
    ) -> Result<bool, NoMemory>
        requires { MayTellStep script.now self.old (N.actors listener.old) actor }
        ensures { HasAsked script.now N.has N.actors self.old self.new listener.old listener.new resting.old resting.new result (λ w. step script.now w actor) (λ w. HasFinished script.now w actor) }
    {
        if let Some(ended) = self.still_rests(resting, actor) {
            return Ok(ended);
        }
        self.tell_asked(script, actor, resting, listener, next)
    }

    /// The script's turns, one step each.
    fn tell_turns<N: Listener>(
        &mut self,
        script: &Script,
        resting: &mut Resting,
        listener: &mut N,
        next: &mut Action,
    ) -> Result<(), NoMemory>
        requires { MayTell script.now self.old (N.actors listener.old) }
        ensures { IsToldTo N.actors listener.old listener.new result (GoesOnKnowing script.now N.has self.old self.new listener.old listener.new resting.old resting.new (λ w. run script.now w script.now.turns)) }
    {
        for actor in script.turns.as_slice() {
            let _finished = self.tell_unless_resting(script, *actor, resting, listener, next)?;
        }
        Ok(())
    }

    /// A round: each actor steps once, in order of the actors' numbers. The answer is whether all had finished before.
    fn tell_round<N: Listener>(
        &mut self,
        script: &Script,
        resting: &mut Resting,
        listener: &mut N,
        next: &mut Action,
    ) -> Result<bool, NoMemory>
        requires { MayTell script.now self.old (N.actors listener.old) }
        ensures { HasAsked script.now N.has N.actors self.old self.new listener.old listener.new resting.old resting.new result (round script.now) (λ w. AllFinished script.now w × (round script.now w ≡ w)) }
    {
        let mut finished = true;
        for actor in 0..actor_count(script) {
            let done = self.tell_unless_resting(script, actor, resting, listener, next)?;
            finished = both(finished, done);
        }
        Ok(finished)
    }

    /// Round robin until all have finished.
    fn tell_rounds<N: Listener>(
        &mut self,
        script: &Script,
        resting: &mut Resting,
        listener: &mut N,
        next: &mut Action,
    ) -> Result<(), NoMemory>
        requires { MayTell script.now self.old (N.actors listener.old) }
        ensures { IsToldTo N.actors listener.old listener.new result ((w : PlainWorld) → Stands script.now self.old w → IsKnown script.now w resting.old →
            (number : ℕ) × TellsOn script.now N.has self.new listener.old listener.new w (rounds script.now w number) × AllFinished script.now (rounds script.now w number)) }
    {
        // What is left to do falls with every round, so it ends long before it has counted so far.
        for _round in 0..u64::MAX {
            if self.tell_round(script, resting, listener, next)? {
                return Ok(());
            }
        }
        Ok(())
    }

    /// The script's turns, and then rounds: the whole walk, where the engine stands before the first step.
    fn tell_all<N: Listener>(&mut self, script: &Script, listener: &mut N) -> Result<(), NoMemory>
        requires { MayTell script.now self.old (N.actors listener.old) }
        ensures { IsToldTo N.actors listener.old listener.new result (Stands script.now self.old (open_world script.now) → N.has listener.old [] → (made : List MadeNote) × N.has listener.new made × IsTelling script.now made) }
    {
        let mut resting = Resting::none();
        let mut next = Action::Nothing;
        self.tell_turns(script, &mut resting, listener, &mut next)?;
        self.tell_rounds(script, &mut resting, listener, &mut next)
    }
}

/// Tells the notes of a script's walk, one after the other, as they are made, and keeps none: the notes that `run_steps`
/// lists, in the order of the steps. Fails for want of memory alone, its own or the listener's; what the listener has after
/// that is not told. Our own decision.
pub fn tell_walk<N: Listener>(
    alloc: Global,
    script: &Script,
    listener: &mut N,
) -> Result<(), NoMemory>
    requires script { IsScript script.now }
    requires actors { actor_count script.now ≤ N.actors listener.old }
    ensures told { OnOk result (N.has listener.old [] → (made : List MadeNote) × N.has listener.new made × IsTelling script.now made) }
    ensures actors { N.actors listener.new ≡ N.actors listener.old }
{
    let mut engine = Engine::boot(alloc, script)?;
    engine.tell_all(script, listener)
}

/// The lists of notes of a script's walk: the script's turns in order, then round robin until all actors have
/// finished. Our own decision. `NoMemory` where there is no room for the world or for a note.
pub fn run_steps(alloc: Global, script: &Script) -> Result<Lists, NoMemory>
    requires { IsScript script.now }
    ensures { IfOk result (IsWalk script.now) }
{
    let mut lists = KeptLists::new(alloc, actor_count(script))?;
    tell_walk(alloc, script, &mut lists)?;
    Ok(lists.into_lists())
}
