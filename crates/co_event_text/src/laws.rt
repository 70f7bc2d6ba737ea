//! Laws of the text, each the contract of a function that does nothing.
ghost use Rattle.co_event_text.specs.Laws.{EachUntilTakesAll};

/// Behind an `until` no window ends at or before its time: as many events as callouts are pending are all that come by then.
pub fn each_until_takes_all()
    ensures { EachUntilTakesAll }
{}
