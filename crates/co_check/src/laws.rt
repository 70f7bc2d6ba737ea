//! What the verdict says of histories, each the contract of a function that does nothing.
ghost use Rattle.co_check.specs.Lines.{ReadReportsMayBeChecked};
ghost use Rattle.co_check.specs.Programs.{FollowsWhereSeen};
ghost use Rattle.co_check.specs.Runs.{LegalReportsAreOfRuns, ReportsOfRunsAreLegal, ReportsOfRunsAreReadAsLegal, RunsAreLegal};
ghost use Rattle.co_check.specs.Laws.{HistoriesOfLegalReports, LegalHistoriesFit};

/// What `read_report` answers meets the condition of `check`: its script is accepted, each line stands in a place of that script,
/// is of the kind of its place and of one of the script's actors, and names callouts that exist, and there are at most 268435456
/// lines.
pub fn read_reports_may_be_checked()
    ensures { ReadReportsMayBeChecked }
{}

/// Where the verdict is Legal, each callout's history is one of that callout alone, and each CPU's journal one of a plain
/// timer queue.
pub fn legal_histories()
    ensures { HistoriesOfLegalReports }
{}

/// Where they are, nothing is wrong with a report's histories.
pub fn histories_fit()
    ensures { LegalHistoriesFit }
{}

/// An actor's notes follow its program exactly where none of them is astray and the program ends after them.
pub fn follows_where_seen()
    ensures { FollowsWhereSeen }
{}

/// The report of a run is legal.
pub fn runs_are_legal()
    ensures { RunsAreLegal }
{}

/// A report whose lines are, place by place, the shown histories of a run's lists is legal.
pub fn reports_of_runs_are_legal()
    ensures { ReportsOfRunsAreLegal }
{}

/// And so is the text of a run's report, read again: of a script that fits, it is read as the script and exactly the notes of
/// the run, and the verdict is Legal, where it has at most 268435456 bytes and the notes have values that their types allow.
pub fn reports_of_runs_read_back_as_legal()
    ensures { ReportsOfRunsAreReadAsLegal }
{}

/// And a report that is legal is of a run: there are lists of notes, one for each actor, that are a run of the script, and
/// the report's lines are their shown histories.
pub fn legal_reports_are_of_runs()
    ensures { LegalReportsAreOfRuns }
{}
