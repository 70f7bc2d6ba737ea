//! What the shared histories tell.
use crate::Line;
use co_life::Story;
use co_object::{Entry, QEntry};

/// The history of a callout.
pub struct TimerStory;

impl Story for TimerStory {
    type Entry = Line<Entry>;

    ghost use Rattle.co_desk.specs.Stories.{timer_actor, IsTimerStory, IsTimerStory-empty, IsTimerStory-prefix};

    ghost actor = { timer_actor };

    ghost legal = { IsTimerStory };

    ghost empty_is_legal = { IsTimerStory-empty };

    ghost prefix_is_legal = { IsTimerStory-prefix };
}

/// The journal of a CPU.
pub struct CpuStory;

impl Story for CpuStory {
    type Entry = Line<QEntry>;

    ghost use Rattle.co_desk.specs.Stories.{cpu_actor, IsCpuStory, IsCpuStory-empty, IsCpuStory-prefix};

    ghost actor = { cpu_actor };

    ghost legal = { IsCpuStory };

    ghost empty_is_legal = { IsCpuStory-empty };

    ghost prefix_is_legal = { IsCpuStory-prefix };
}
