//! A process's timer.
use co_sbt::Sbt;

/// What a process's timer has to come, after setitimer(2)'s `struct itimerval`. Spans are in units of 2^-32 s.
#[derive(Clone, Copy, Debug, PartialEq, Eq)]
pub struct Itimerval {
    /// How long it is until the next expiration; 0 where none is to come.
    pub value: Sbt,
    /// From each expiration to the next; 0 where none follows.
    pub interval: Sbt,
}

/// A process's timer.
#[derive(Clone, Copy)]
pub(crate) struct Timer {
    /// When it expires next, in units of 2^-32 s. None where it is not set.
    pub next: Option<Sbt>,
    /// From each expiration to the next, in units of 2^-32 s; 0 where none follows.
    pub interval: Sbt,
    /// Whether it has expired since the process last asked.
    pub alarm: bool,
}
