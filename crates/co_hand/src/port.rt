//! The port through which a function makes calls.

use crate::port_call::PortReply;
use co_lock::Hold;
use co_object::PlainOp;

/// A way to make calls on callouts, for the functions that a service runs.
///
/// Its callouts have specs and its CPUs are numbered from 0; none of them changes. It stores its calls with their answers,
/// and has room for so many more. What it was made with is its origin. A drain can't be asked for here, since it waits for
/// the end of a service and a function would wait for its own.
pub trait Port {
    ghost use Rattle.std.specs.Prelude.{◌≡◌, ◌<◌, ◌∷◌, [], length};
    ghost use Rattle.std.specs.Option.{option_copied};
    ghost use Rattle.co_hand.specs.Ports.{PortState, after_calls, NamesCpuBelow, IsCoverAnswered};

    /// What the port was made with.
    type Origin;

    // Its specs, its number of CPUs, its origin, the calls that were made and the room for more.
    ghost state: { Self → PortState Self.Origin };

    /// Makes the call on callout `i`, under the hold that the caller has. `NotHeld` comes exactly where the hold doesn't cover
    /// the call. The callout and a CPU that is named exist, and there is room for the call. It may wait, for the callout.
    fn call(&mut self, i: u32, op: &PlainOp, hold: Option<&Hold<'_>>) -> PortReply
        requires callout { i < length (state self.old).specs }
        requires cpu { NamesCpuBelow (state self.old).cpus op.now }
        requires room { 0 < (state self.old).room }
        ensures made { state self.new ≡ after_calls (state self.old) (record { i = i; op = op.now; answer = result } ∷ []) }
        ensures answered { IsCoverAnswered (state self.old).specs (option_copied hold.entry) (record { i = i; op = op.now; answer = result }) };
}
