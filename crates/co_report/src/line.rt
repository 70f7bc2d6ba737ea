//! A report as it is read: its script, and each line of its histories.
use co_object::{AnyEntry, Place};
use co_program::Script;
use co_sbt::Seq;

/// A note line of a report.
#[derive(Clone, Copy, Debug, PartialEq, Eq)]
pub struct Line {
    /// The number of the line in the report, from 1.
    pub line: u64,
    /// The place whose history it stands in.
    pub place: Place,
    /// The number of the note in its actor's list, from 0, as the line gives it.
    pub number: u64,
    /// What the line says.
    pub entry: AnyEntry,
}

/// What a report says: the script, and the note lines in their order. Our own decision.
#[derive(Drop)]
pub struct Report {
    /// The script whose run the report shows.
    pub script: Script,
    /// The note lines, in the order of the report.
    pub lines: Seq<Line>,
    /// The number of the line `end`, the report's last.
    pub end: u64,
}
