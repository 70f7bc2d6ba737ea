//! How an actor's place in its program goes on in a step without a note.
ghost use Rattle.std.specs.Prelude.{◌≡◌, ℕ, ◌+◌, ◌<◌, ◌≤◌, ◌-◌, ◌^◌};
ghost use Rattle.co_program.specs.declared.role.Role.{Role};
ghost use Rattle.co_program.specs.Indexed.{ActsAreCounted, SilentCounts, cursor_as, cursor_of, after_silent, passed, task_past};
ghost use Rattle.co_program.specs.Scripts.{IsScript};

use crate::action::{SilentStep, firing};
use crate::cursor::{Cursor, Stage};
use crate::script::Script;
use co_lock::Held;

/// A step without a note, as `action_for` gives it: the cursor goes on. `act` rises only as `task` does.
#[inline(always)]
pub fn go(script: &Script, cursor: &mut Cursor, to: &SilentStep)
    requires script { IsScript script.now }
    requires counted { SilentCounts cursor.old to.now }
    ensures cursor { (actor : ℕ) → let s = script.now in
        cursor_of s actor cursor.new ≡ after_silent (cursor_of s actor cursor.old) to.now }
    ensures counted { ActsAreCounted cursor.old cursor.new 0 }
{
    match *to {
        SilentStep::Over { time, hold } => {
            cursor.time = time;
            over(cursor, hold);
        }
        SilentStep::Within { hold } => {
            cursor.hold = hold;
            pass(script, cursor);
        }
        SilentStep::Ends => {
            cursor.hold = None;
            cursor.stage = Stage::Ready;
        }
    }
}

/// The act goes on to its next stage.
fn pass(script: &Script, cursor: &mut Cursor)
    ensures cursor { (role : Role) → let s = script.now in let c = cursor_as s role cursor.old in
        cursor_as s role cursor.new ≡ record c { stage = passed c.stage } }
    ensures counted { ActsAreCounted cursor.old cursor.new 0 }
{
    match cursor.stage {
        Stage::Locking(v) => cursor.stage = Stage::Beginning(v),
        Stage::Unlocking(v, left) => cursor.stage = firing(script, &v, None, left),
        Stage::Releasing(v) => cursor.stage = Stage::Ending(v),
        _ => {}
    }
}

/// The act under way is over in the program, and the actor has this hold.
pub(crate) fn over(cursor: &mut Cursor, hold: Option<Held>)
    requires { cursor.old.act < 2 ^ 64 - 1 }
    ensures cursor { let c = cursor.old in
        cursor.new ≡ record c { task = task_past c.task; act = c.act + 1; hold = hold; stage = Stage.Ready } }
    ensures counted { ActsAreCounted cursor.old cursor.new 1 }
{
    cursor.task = past(cursor.task);
    cursor.act += 1;
    cursor.hold = hold;
    cursor.stage = Stage::Ready;
}

/// One more act is over. No list of acts is as long as the largest number, so that past an end it stays there.
pub(crate) fn past(over: u32) -> u32
    ensures value { result ≡ task_past over }
    ensures no_less { over ≤ result }
{
    over.saturating_add(1)
}
