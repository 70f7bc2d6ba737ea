//! The listener.

use co_object::Note;
use co_sbt::NoMemory;

/// Takes the notes of a run's actors, one after the other, in the order in which they are made.
///
/// What a listener keeps of them is its own affair: their lists, or only what is wanted of them, as a text. Our own decision.
pub trait Listener {
    ghost use Rattle.std.specs.Prelude.{◌≡◌, ◌<◌, ◌≤◌, ◌+◌, ◌++◌, ◌∷◌, [], ℕ, List, OnOk, OnErr};
    ghost use Rattle.co_listener.specs.MadeNotes.{MadeNote};

    /// It has room for the notes of actors below this number.
    ghost actors: { Self → ℕ };

    /// These are the notes that it has taken, in their order.
    ghost has: { Self → List MadeNote → Type 0 };

    /// It takes so many notes more without wanting memory. One that promises none has room for 0.
    ghost room: { Self → ℕ };

    /// Takes a note of this actor. Fails for want of memory alone, and not while it has room; what the listener has after a
    /// failure is not told.
    fn write(&mut self, actor: u32, note: &Note) -> Result<(), NoMemory>
        requires actor { actor < actors self.old }
        ensures has { OnOk result ((made : List MadeNote) → has self.old made → has self.new (made ++ record { actor = actor; note = note.now } ∷ [])) }
        ensures actors { actors self.new ≡ actors self.old }
        ensures room { OnOk result (room self.old ≤ room self.new + 1) }
        ensures err { OnErr result (room self.old ≡ 0) };
}
