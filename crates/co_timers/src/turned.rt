//! What a CPU's turn did.

/// What became of the service of one callout.
#[derive(Clone, Copy)]
pub struct Round {
    /// Its function was called; else it was skipped, since a stop had cancelled the arming while it waited for its lock.
    pub called: bool,
    /// An asynchronous drain awaited the end, and its function was called then.
    pub drained: bool,
}

/// How many callouts were served. From 2^64 - 1 on nothing is counted any more.
#[derive(Clone, Copy, Debug, PartialEq, Eq)]
pub struct Served {
    /// How many functions were called.
    pub called: u64,
    /// How many functions were skipped, since a stop had cancelled the arming while it waited for its lock.
    pub skipped: u64,
    /// How many functions of asynchronous drains were called at the end of a service.
    pub drained: u64,
}

/// What a turn of a CPU did.
#[derive(Clone, Copy, Debug, PartialEq, Eq)]
pub struct Turned {
    /// How many armings had come due.
    pub scanned: u32,
    /// The services of direct callouts, by the CPU's interrupt.
    pub direct: Served,
    /// The services of all other callouts, by the CPU.
    pub others: Served,
}
