//! What an actor still does that was refused memory.
ghost use Rattle.std.specs.Prelude.{◌≡◌, ◌<◌, ◌≤◌, ◌+◌, ℕ, Bool, length, true};
ghost use Rattle.std.specs.List.{All};
ghost use Rattle.co_object.specs.Journal.{scanner};
ghost use Rattle.co_program.specs.declared.Script.{Script};
ghost use Rattle.co_program.specs.Actors.{actor_count, role_of};
ghost use Rattle.co_program.specs.Follows.{scan_count};
ghost use Rattle.co_program.specs.Indexed.{cursor_of, stage_of};
ghost use Rattle.co_program.specs.Scripts.{is_tick};
ghost use Rattle.co_program.specs.Stages.{Ready};
ghost use Rattle.co_desk.specs.Params.{actors_of};
ghost use Rattle.co_desk.specs.Services.{IsFree};
ghost use Rattle.co_desk.specs.Views.{AreOf, journal_seen};
ghost use Rattle.co_world.proofs.kept.Invariant.{under_way};
ghost use Rattle.co_run.specs.Acting.{HasAllScans, HasScanned, ServesAsStage};
ghost use Rattle.co_run.specs.Ready.{HasLeft, IsAtRest};

use crate::actor::Actor;
use crate::book::Book;
use crate::shared::Shared;
use co_hand::Gate;
use co_program::{Act, Cursor, Role, Stage, role_of};
use co_service::{Name, Passes, Service};
use std::sync::Wait;

/// How many of the ticks that are left have their Scan already: that of a tick whose rounds have begun.
fn scanned_of(stage: &Stage) -> usize
    ensures one { result ≤ 1 }
    ensures begun { (s : Script) → result ≤ under_way (stage_of s stage.now) }
{
    match stage {
        Stage::Popping { .. } => 1,
        _ => 0,
    }
}

/// The ticks among these acts of an interrupt that have no Scan yet.
fn ticks_left<'s>(ticks: &'s [Act], cursor: &Cursor) -> &'s [Act]
    requires ticks { All (λ act. is_tick act ≡ true) ticks.now }
    ensures ticks { All (λ act. is_tick act ≡ true) result.now }
    ensures enough { (s : Script) → length ticks.now ≤ length result.now + cursor.now.task + under_way (stage_of s cursor.now.stage) }
{
    let over = cursor.task as usize + scanned_of(&cursor.stage);
    &ticks[ticks.len().min(over)..]
}

/// Scans a CPU at each of these ticks, as the actor that scans it.
fn scan_all<N: Name, R: Wait>(
    rt: &R,
    service: &Service<N>,
    passes: &mut Passes,
    cpu: u32,
    act: u64,
    ticks: &[Act],
)
    requires cpu { cpu < service.now.cpus }
    requires of { AreOf N.name service.now passes.old }
    requires scanner { passes.old.actor ≡ scanner (actors_of service.now) cpu }
    requires ticks { All (λ tick. is_tick tick ≡ true) ticks.now }
    ensures scans { scan_count (journal_seen passes.old cpu) + length ticks.now ≤ scan_count (journal_seen passes.new cpu) }
    ensures free { (direct : Bool) (x : ℕ) → IsFree direct passes.old x → IsFree direct passes.new x }
{
    for tick in ticks {
        let Act::Tick(now) = tick else {
            unreachable!();
        };
        let _scanned = service.scan(rt, passes, cpu, act, *now);
    }
}

/// The Scans that an interrupt which was refused memory still owes its CPU, whose soft acts wait for them. Nothing is
/// noted.
fn scan_rest<N: Name, G: Gate, R: Wait>(
    rt: &R,
    shared: &Shared<'_, N, G>,
    number: u32,
    passes: &mut Passes,
    cursor: &Cursor,
)
    requires below { number < actor_count shared.now.script.now }
    requires of { AreOf N.name shared.now.service.now passes.old }
    requires actor { passes.old.actor ≡ number }
    requires scanned { let c = cursor_of shared.now.script.now number cursor.now in HasScanned shared.now.script.now (role_of shared.now.script.now number) passes.old c.left c.stage }
    ensures scans { HasAllScans shared.now.script.now (role_of shared.now.script.now number) passes.new }
    ensures free { ServesAsStage (role_of shared.now.script.now number) passes.old Ready → ServesAsStage (role_of shared.now.script.now number) passes.new Ready }
{
    let script = shared.script;
    let Role::Interrupt(cpu) = role_of(script, number) else {
        return;
    };
    let Some(ticks) = script.ticks.as_slice().get(cpu as usize) else {
        return;
    };
    let left = ticks_left(ticks.as_slice(), cursor);
    scan_all(rt, shared.service, passes, cpu, cursor.act, left);
}

impl<'a, B: Book> Actor<'a, B> {
    /// Leaves its program between two services: it lets go of its lock, has nothing in service, and as an interrupt makes the
    /// Scans that its CPU still waits for.
    pub(crate) fn leave<N: Name, G: Gate, R: Wait>(&mut self, rt: &R, shared: &Shared<'_, N, G>)
        requires { IsAtRest B.notes B.spare shared.now.script.now shared.now.longest N.name self.old }
        ensures { HasLeft shared.now.script.now self.old self.new }
    {
        self.hold = None;
        scan_rest(rt, shared, self.number, &mut self.passes, &self.cursor);
    }
}
