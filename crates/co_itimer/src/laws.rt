//! Laws of the interval timers, each the contract of a function that does nothing.
ghost use Rattle.co_itimer.specs.Laws.{FollowsInStep};

/// A timer that expires late keeps its step: its next time lies the least whole number of intervals behind the one that has
/// come, at least one, at which it lies above the clock.
pub fn follows_in_step()
    ensures { FollowsInStep }
{}
