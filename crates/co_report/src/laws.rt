//! The laws of reports, each the contract of a function that does nothing.
ghost use Rattle.co_report.specs.Laws.{ReportReadsBack, RunReadsBack, ReadReportsFit};

pub use co_notes::laws::notes_have_one_spelling;
pub use co_print::laws::histories_shown;

/// The report of a script that fits and of notes that fit their places is read as this script and exactly these notes, place
/// by place with the numbers of their lines, where it has at most 268435456 bytes.
pub fn reports_read_back()
    ensures { ReportReadsBack }
{}

/// The report of a run of a script that fits, whose notes have values that their types allow, is read back as that
/// script and exactly its notes, where it has at most 268435456 bytes.
pub fn reports_of_runs_read_back()
    ensures { RunReadsBack }
{}

/// The script of a report that is read fits, and each of its lines stands in a place of it: the place exists, the entry is
/// of its kind, what it names exists, and an own note is of its actor.
pub fn read_reports_fit()
    ensures { ReadReportsFit }
{}
