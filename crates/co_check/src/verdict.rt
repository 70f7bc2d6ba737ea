//! What a checker says of a report.

/// What is wrong with a line of a report. The cases are our own.
#[derive(Clone, Copy, Debug, PartialEq, Eq)]
pub enum Unfit {
    /// An entry is not of the actor who alone may make it.
    Actor,
    /// An operation is not possible after the entries above it in its place, or has another reply.
    Illegal,
    /// A note's number is not below the count of its actor's notes, or is another note's too, or falls in its place.
    Number,
    /// A note is not the one that its actor's program gives there.
    Follows,
    /// An actor's notes end before its program has.
    Missing,
}

/// The verdict on a report.
#[derive(Clone, Copy, Debug, PartialEq, Eq)]
pub enum Verdict {
    /// It is the report of a run.
    Legal,
    /// It is not the report of a run.
    Not {
        /// The first line that is wrong, numbered from 1.
        line: u64,
        /// What is wrong with it.
        cause: Unfit,
    },
}
