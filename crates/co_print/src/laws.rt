//! The law of what a report shows, the contract of a function that does nothing.
ghost use Rattle.co_print.specs.Laws.{EachHistoryIsShown};

/// What a report shows of a place, but for the numbers of the notes, is the place's history.
pub fn histories_shown()
    ensures { EachHistoryIsShown }
{}
