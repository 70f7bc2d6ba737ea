//! What the commands say of each other's texts, each law the contract of a function that does nothing.
ghost use Rattle.co_top.specs.Laws.{ReportsOfRunsAreLegal, ReportsOfStepsAreLegal};

/// What `steps` makes of a script is a report that `check` calls legal, where it has at most 268435456 bytes: more are no
/// report.
pub fn reports_of_steps_are_legal()
    ensures { ReportsOfStepsAreLegal }
{}

/// What `run` makes of a script is a report that `check` calls legal, where it is not too long for an input.
pub fn reports_of_runs_are_legal()
    ensures { ReportsOfRunsAreLegal }
{}
