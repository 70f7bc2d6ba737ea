//! Which lock an actor takes next, by its cursor.
ghost use Rattle.std.specs.Prelude.{◌≡◌, Some, slice_get};
ghost use Rattle.std.specs.Option.{option_and_then, option_copied};
ghost use Rattle.co_lock.specs.declared.held.Held.{Held as HeldOf};
ghost use Rattle.co_lock.specs.Service.{hold_of};
ghost use Rattle.co_program.specs.Action.{Take, action_for};
ghost use Rattle.co_program.specs.Actors.{acts_at};
ghost use Rattle.co_program.specs.Cursor.{Cursor as CursorOf};
ghost use Rattle.co_program.specs.Indexed.{cursor_of};
ghost use Rattle.co_core.specs.Taking.{lock_taken_by};

use co_lock::{Held, hold_of};
use co_program::{Act, Cursor, Script, Stage};

/// The hold that the actor takes next, where that is all it does.
pub(crate) fn takes_next(script: &Script, actor: u32, cursor: &Cursor) -> Option<Held>
    ensures { (held : HeldOf) → result ≡ Some held → (to : CursorOf) × (action_for script.now actor (cursor_of script.now actor cursor.now) ≡ Take held to) }
{
    if cursor.parcel.is_some() {
        return None;
    }
    match &cursor.stage {
        Stage::Ready => {
            if cursor.hold.is_some() {
                None
            } else {
                client_lock(script, actor, cursor.task)
            }
        }
        Stage::Locking(service) => service_lock(script, service.i),
        _ => None,
    }
}

/// The act of a client at this index, counted from 0, where there is one.
fn act_of(script: &Script, client: u32, index: u32) -> Option<&Act>
    ensures { option_copied result ≡ slice_get (acts_at script.now.clients client) index }
{
    match script.clients.as_slice().get(client as usize) {
        Some(acts) => acts.as_slice().get(index as usize),
        None => None,
    }
}

/// What the act of a client takes, counted from 0.
fn client_lock(script: &Script, client: u32, index: u32) -> Option<Held>
    ensures { result ≡ option_and_then lock_taken_by (slice_get (acts_at script.now.clients client) index) }
{
    match act_of(script, client, index) {
        Some(act) => lock_of(act),
        None => None,
    }
}

fn lock_of(act: &Act) -> Option<Held>
    ensures { result ≡ lock_taken_by act.now }
{
    match *act {
        Act::Lock(id) => Some(Held {
            id,
            exclusive: true,
        }),
        Act::ReadLock(id) => Some(Held {
            id,
            exclusive: false,
        }),
        _ => None,
    }
}

/// What a service takes before it calls the callout's function.
fn service_lock(script: &Script, i: u32) -> Option<Held>
    ensures { result ≡ option_and_then (λ spec. hold_of spec.lock) (slice_get script.now.timers i) }
{
    match script.timers.as_slice().get(i as usize) {
        Some(spec) => hold_of(spec.lock),
        None => None,
    }
}
