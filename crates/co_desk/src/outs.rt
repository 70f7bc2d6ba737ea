//! What the calls of a service answer.
use co_object::{Note, Reply};
use co_sbt::Sbt;

/// What a call, the begin of a service or its end answers.
#[derive(Debug, Drop)]
pub struct Made {
    /// The callout's reply.
    pub reply: Reply,
    /// The notes, in their order. Of a call these are at most a Remove, the callout's entry, and at most an Insert; of an
    /// end the callout's entry, the Free, and at most an Insert.
    pub notes: [Option<Note>; 3],
}

/// What a scan answers.
#[derive(Debug, Drop)]
pub struct Scanned {
    /// How many entries had come due.
    pub count: u32,
    /// The note of the Scan.
    pub note: Note,
    /// How many entries the scan looked at.
    pub looks: u64,
}

/// What the start of a service answers.
#[derive(Debug, Drop)]
pub enum Taken {
    /// Nothing had come due.
    Empty {
        /// The note of the Pop.
        note: Note,
    },
    /// Callout `i`'s arming `n` is taken into service. `at` is the time of the last scan, and `reply` says whether the
    /// function is to be called at once.
    Took {
        i: u32,
        n: u64,
        at: Sbt,
        reply: Reply,
        /// The note of the Pop.
        pop: Note,
        /// The note of the Pick.
        pick: Note,
    },
}
