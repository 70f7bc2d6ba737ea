//! What holds of the core's world whenever it is looked at, each law as a function that does nothing.
ghost use Rattle.co_world.specs.World.{World as PlainWorld};
ghost use Rattle.co_world.specs.Laws.{IsReached};
ghost use Rattle.co_core.specs.Seen.{Seen};
ghost use Rattle.co_core.specs.Shows.{Shows};
ghost use Rattle.co_core.specs.Whereabouts.{CalloutsHaveOneSlot, RecordsHaveOnePlace, WheelsAreOfWorlds};

/// What the core's world stands for is reached by some schedule, so that the laws of every schedule hold of it.
pub fn shown_worlds_are_reached()
    ensures { (x : Seen) (w : PlainWorld) → Shows x w → IsReached x.script w }
{}

/// Each callout's record is in exactly one wheel, or with the one actor that is moving it.
pub fn records_have_one_place()
    ensures { RecordsHaveOnePlace }
{}

/// A callout is in at most one service, of a CPU or of its interrupt.
pub fn callouts_have_one_slot()
    ensures { CalloutsHaveOneSlot }
{}

/// The wheels have the states of the plain world that they stand for, and show its queues.
pub fn wheels_are_of_worlds()
    ensures { WheelsAreOfWorlds }
{}
