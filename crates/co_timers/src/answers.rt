//! What the calls of a handle answer, in words.

/// Why a call was not made. Nothing has changed then, and no act was used up.
#[derive(Clone, Copy, Debug, PartialEq, Eq)]
pub enum Refused {
    /// There is no callout of this number.
    NoCallout,
    /// The call names a CPU that there is not.
    NoCpu,
    /// The caller doesn't hold the callout's lock as the call wants it, which `co_lock::covers` tells: in either mode to
    /// arm, exclusively to stop or to begin an asynchronous drain. A hold is told by its number and mode: of which set of
    /// client locks it is, no clause says.
    NotHeld,
    /// The caller of a drain, which waits, holds a lock.
    HoldsLock,
    /// A function drains the callout in whose service it runs: it would wait for its own end for ever.
    DrainsItself,
}

/// What a reset or a schedule answers.
#[derive(Clone, Copy, Debug, PartialEq, Eq)]
pub enum Reset {
    /// The callout is armed. `replaced` is whether this replaced an arming, or cancelled one that waited for the callout's
    /// lock: the code 1 of `callout_reset`, and else 0.
    Armed { replaced: bool },
    /// Nothing is armed, since a drain of either kind awaits the end of the callout's service. `cancelled` is whether an
    /// arming that waited for the lock was cancelled.
    Draining { cancelled: bool },
    /// A schedule of a callout that no reset has given a function. Nothing changes.
    NoHandler,
    /// The callout was armed 2^64 - 1 times, and can't be armed again. Nothing changes.
    Worn,
    /// The callout is out of use. Nothing changes.
    Retired,
}

/// What a stop answers, after the codes of `callout_stop`.
#[derive(Clone, Copy, Debug, PartialEq, Eq)]
pub enum Stopped {
    /// Code 1: an arming was taken away, or one that waited for the callout's lock is cancelled. Its function doesn't run.
    Cancelled,
    /// Code 0: the callout is in service otherwise, so that its function may be running.
    Running,
    /// Code -1: there was nothing to stop.
    Nothing,
    /// The callout is out of use. Nothing changes.
    Retired,
}

/// What a drain answers. No service has the callout now, and it is not armed.
#[derive(Clone, Copy, Debug, PartialEq, Eq)]
pub enum Drained {
    /// Code 1: an arming was taken away.
    Cancelled,
    /// Code -1: none was.
    Nothing,
}

/// What an asynchronous drain answers.
#[derive(Clone, Copy, Debug, PartialEq, Eq)]
pub enum AsyncDrained {
    /// Code 1: no service had the callout, and an arming was taken away. The drain's function is not called.
    Cancelled,
    /// Code 0: the callout is in service, and at the end the drain's function is called.
    Begun,
    /// Code -1: no service had the callout, and there was nothing to stop. The drain's function is not called.
    Nothing,
    /// Another asynchronous drain awaits the end of the service. Nothing changes.
    Busy,
    /// The callout is out of use. Nothing changes.
    Retired,
}
