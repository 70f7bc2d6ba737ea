//! Which place, which operation and which reply a packed note has. An optional part that is there, or a flag that is set,
//! makes another kind.
use co_object::OwnKind;

/// Whose history it is.
#[derive(Clone, Copy)]
pub(crate) enum Whose {
    Timer,
    Cpu,
    Actor,
}

/// An operation on a callout. `On` has a CPU that is wanted.
#[derive(Clone, Copy)]
pub(crate) enum Kind {
    Reset,
    ResetOn,
    Schedule,
    ScheduleOn,
    Stop,
    AsyncDrain,
    Active,
    Pending,
    Deactivate,
    Init,
    Retire,
    Drain,
    DrainTook,
    Pick,
    Begin,
    End,
}

/// A callout's reply. `Off` has a CPU in whose queue an arming stood; of an end `Next`, `Drain` and `Woke` say which of
/// these there were.
#[derive(Clone, Copy)]
pub(crate) enum Answer {
    Armed,
    ArmedOff,
    NotArmed,
    NoHandler,
    Worn,
    Stopped,
    StoppedOff,
    Wait,
    WaitOff,
    WaitTook,
    WaitTookOff,
    Drained,
    DrainedOff,
    Busy,
    Yes,
    No,
    Done,
    Go,
    Hold,
    Skip,
    Ended,
    EndedWoke,
    EndedDrain,
    EndedDrainWoke,
    EndedNext,
    EndedNextWoke,
    EndedNextDrain,
    EndedNextDrainWoke,
    Live,
    Retired,
    InUse,
    InUseArmed,
    InUseServiced,
    InUseBoth,
}

/// An operation on a CPU's timer queue.
#[derive(Clone, Copy)]
pub(crate) enum QKind {
    Insert,
    Remove,
    Scan,
    Pop,
    Free,
    PopDirect,
    FreeDirect,
}

/// The queue's reply.
#[derive(Clone, Copy)]
pub(crate) enum QAnswer {
    At,
    Off,
    Missing,
    Count,
    Got,
    Empty,
    Freed,
}

/// Of which history an entry is, with its operation and its reply.
#[derive(Clone, Copy)]
pub(crate) enum Sort {
    Timer(Kind, Answer),
    Cpu(QKind, QAnswer),
    Own(OwnKind),
}
