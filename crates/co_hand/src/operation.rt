//! The operation that an act asks for.
ghost use Rattle.std.specs.Prelude.{◌≡◌, ◌≤◌, ◌↔◌, true, IsNone, IsSome, ℕ};
ghost use Rattle.co_program.specs.Calls.{plain_op, names_me};
ghost use Rattle.co_hand.specs.Operations.{asks_nothing, IsTheServed};

use co_object::PlainOp;
use co_program::{Act, Scene, call_of};
use co_sbt::Sbt;

/// The callout and the operation that an act asks for at the time `now`, on the CPU `here`, about the callout `me` where a
/// function runs for one. `hz` are the ticks of a second, from 1 to 1000000.
///
/// None exactly for `now`, a lock taken or released, a drain and a tick. An act about the callout in service is for a
/// function alone, where `me` is given.
pub fn plain_op(act: &Act, hz: u32, now: Sbt, here: u32, me: Option<u32>) -> Option<(u32, PlainOp)>
    requires low { 1 ≤ hz }
    requires high { hz ≤ 1000000 }
    requires me { names_me act.now ≡ true → IsSome me }
    ensures op { (i : ℕ) → IsTheServed me i → result ≡ plain_op act.now hz (record { time = now; here = here; me = i }) }
    ensures none { IsNone result ↔ (asks_nothing act.now ≡ true) }
{
    let me = me.unwrap_or(0);
    call_of(
        act,
        hz,
        &Scene {
            time: now,
            here,
            me,
        },
    )
}
