//! When an actor's next step has to wait.
ghost use Rattle.std.specs.Prelude.{◌≡◌, ◌<◌, if◌then◌else◌, length, nat_lt, true, Some, None};
ghost use Rattle.co_program.specs.declared.script.Script.{Script as ScriptOf};
ghost use Rattle.co_program.specs.Action.{action_for};
ghost use Rattle.co_program.specs.Actors.{actor_count};
ghost use Rattle.co_program.specs.Follows.{scan_count};
ghost use Rattle.co_program.specs.Indexed.{action_of, cursor_of, stage_of};
ghost use Rattle.co_program.specs.Scripts.{IsScript};
ghost use Rattle.co_world.specs.Blocked.{blocked, is_locked, is_moving, is_waiting};
ghost use Rattle.co_core.specs.Acting.{RunsActor, Stands};
ghost use Rattle.co_core.specs.Resting.{TakesNext};
ghost use Rattle.co_core.specs.Stands.{ShowsBooked};
ghost use Rattle.co_lock.specs.declared.held.Held.{Held as HeldOf};
ghost use Rattle.co_core.specs.Stored.{stand_at};
ghost use Rattle.co_world.specs.World.{World as PlainWorld};
ghost use Rattle.co_core.specs.Written.{booked_at};

mod taking;

use crate::engine::Engine;
use crate::resting::Known;
use co_lock::Held;
use co_object::Op;
use co_program::{Action, Asked, Cursor, Script, Stage, scans_first};
use co_world::{Turn, Why};
use taking::takes_next;

impl Engine {
    /// A lock is taken once no other actor holds it in a mode that excludes this one.
    fn lock_waits(&self, held: &Held) -> Option<Why>
        ensures { (s : ScriptOf) (w : PlainWorld) → ShowsBooked s self.now.ledger w → result ≡ (if is_locked s w held.now then Some (Why.Lock held.now.id) else None) }
    {
        if self.ledger.is_locked(held) {
            Some(Why::Lock(held.id))
        } else {
            None
        }
    }

    /// Others keep an actor from this hold.
    pub(crate) fn keeps_out(&self, held: &Held) -> bool
        ensures { result ≡ true → (s : ScriptOf) (w : PlainWorld) → ShowsBooked s self.now.ledger w → is_locked s w held.now ≡ true }
    {
        self.ledger.is_locked(held)
    }

    /// What is known of an actor after its step: that it has finished, or the hold that it takes next, where that was not to be
    /// had.
    #[inline(always)]
    pub(crate) fn known_after(&self, script: &Script, actor: u32, turn: Turn) -> Known
        requires { actor < length self.now.ledger.cursors }
        ensures ended { result ≡ Known.Ended → turn ≡ Turn.Finished }
        ensures wanted { (held : HeldOf) (w : PlainWorld) → result ≡ Known.Wants held → ShowsBooked script.now self.now.ledger w → actor < actor_count script.now → TakesNext script.now w actor held }
    {
        match turn {
            Turn::Notes(_) => Known::Nothing,
            Turn::Finished => Known::Ended,
            Turn::Blocked(why) => self.known_of_blocked(script, actor, why),
        }
    }

    /// What is known of an actor that has to wait for this.
    fn known_of_blocked(&self, script: &Script, actor: u32, why: Why) -> Known
        requires { actor < length self.now.ledger.cursors }
        ensures ended { result ≡ Known.Ended → ⊥ }
        ensures wanted { (held : HeldOf) (w : PlainWorld) → result ≡ Known.Wants held → ShowsBooked script.now self.now.ledger w → actor < actor_count script.now → TakesNext script.now w actor held }
    {
        match why {
            Why::Lock(_) => match takes_next(script, actor, self.ledger.cursor(actor)) {
                Some(held) => Known::Wants(held),
                None => Known::Nothing,
            },
            _ => Known::Nothing,
        }
    }

    /// A call waits while its callout is on its way, and a drain's next try for the end of the service that the last one
    /// named.
    fn call_waits(&self, i: u32, stage: &Stage) -> Option<Why>
        requires stand { i < length self.now.depot.stands }
        requires wheel { stand_at self.now.depot i < length self.now.depot.wheels }
        ensures { (s : ScriptOf) (w : PlainWorld) → IsScript s → Stands s self.now w → i < length s.timers →
            result ≡ (if is_moving s w i then Some (Why.Moving i) else if is_waiting w i (stage_of s stage.now) then Some (Why.Serviced i) else None) }
    {
        let cpu = self.depot.stand(i);
        if !self.depot.holds(cpu, i) {
            return Some(Why::Moving(i));
        }
        if self.drain_waits(cpu, i, stage) {
            Some(Why::Serviced(i))
        } else {
            None
        }
    }

    /// The CPU at which the callout stands, or the interrupt of it, has it in service.
    fn drain_waits(&self, cpu: u32, i: u32, stage: &Stage) -> bool
        requires { cpu < length self.now.depot.wheels }
        ensures { (s : ScriptOf) (w : PlainWorld) → IsScript s → Stands s self.now w → i < length s.timers → cpu ≡ stand_at self.now.depot i →
            result ≡ is_waiting w i (stage_of s stage.now) }
    {
        match stage {
            Stage::Waiting { n, .. } => self.depot.services(cpu, i, *n),
            _ => false,
        }
    }

    /// A soft act waits for the Scans of its CPU.
    fn tick_waits(&self, cpu: u32, first: u32) -> Option<Why>
        requires { cpu < length self.now.ledger.scans }
        ensures { (s : ScriptOf) (w : PlainWorld) → ShowsBooked s self.now.ledger w → cpu < s.cpus → result ≡ (if nat_lt (scan_count (w.cpus cpu).journal) first then Some (Why.Tick cpu) else None) }
    {
        if self.ledger.scans(cpu) < u64::from(first) {
            Some(Why::Tick(cpu))
        } else {
            None
        }
    }

    /// Why the actor's next step has to wait, if it has to.
    #[inline(always)]
    pub(crate) fn blocked(
        &self,
        script: &Script,
        actor: u32,
        cursor: &Cursor,
        action: &Action,
    ) -> Option<Why>
        requires runs { RunsActor script.now self.now actor }
        requires cursor { cursor.now ≡ booked_at self.now.ledger actor }
        requires action { action_of script.now actor cursor.now action.now ≡ action_for script.now actor (cursor_of script.now actor cursor.now) }
        ensures { (w : PlainWorld) → Stands script.now self.now w → result ≡ blocked script.now w actor }
    {
        match action {
            Action::Nothing => None,
            Action::Silent(_) => None,
            Action::Take { held, .. } => self.lock_waits(held),
            Action::Asks { asked, .. } => match asked {
                Asked::Callout { i, op } => match op {
                    Op::Call(_) => self.call_waits(*i, &cursor.stage),
                    Op::Run(_) => None,
                },
                Asked::Queue { cpu, .. } => {
                    self.tick_waits(*cpu, scans_first(script, actor, cursor))
                }
                Asked::Itself(_) => None,
            },
        }
    }
}
