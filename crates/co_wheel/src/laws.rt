//! What every wheel keeps, each law the contract of a function that only looks at one.
ghost use Rattle.co_wheel.specs.Agreed.{IsWheel};
ghost use Rattle.co_wheel.specs.Kept.{KeepsSlots};

use crate::Wheel;
use co_queue::TimerQueue;

/// The callouts that are not idle are exactly those of the slots, with the slots' armings: at most one in the CPU's, and at
/// most one, a direct one, in its interrupt's. No callout here is in service at another CPU.
pub fn wheels_keep_their_slots<Q: TimerQueue + Drop>(wheel: &Wheel<Q>)
    ensures { KeepsSlots wheel.now.callouts }
{
    wheel.kept();
}

/// What is armed and listed here stands in the queue with its number, and nothing else does: it waits no shorter than it is
/// due, or has come due by the last scan, in the lane of its callout. A callout is direct exactly where the queue has its
/// number as direct.
pub fn wheels_agree_with_their_queues<Q: TimerQueue + Drop>(wheel: &Wheel<Q>)
    ensures { IsWheel wheel.now }
{
    wheel.kept();
}
