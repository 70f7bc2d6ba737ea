//! Laws of the calls, which have no bodies.
ghost use Rattle.co_single.specs.Laws.{AsManyAsAnswered, EachDueFiresOnce, EachFiringIsCounted, NoAlarmPastTheLast, NoFiringIsCounted};

/// After a scan and fires until nothing waits each callout that was due has fired once, and no other has.
pub fn each_due_fires_once()
    ensures { EachDueFiresOnce }
{}

/// These are as many as the scan answered.
pub fn as_many_as_answered()
    ensures { AsManyAsAnswered }
{}

/// Each firing is one more call of a function in all histories together.
pub fn each_firing_is_counted()
    ensures { EachFiringIsCounted }
{}

/// Where the callouts stay as they are there is no such call.
pub fn no_firing_is_counted()
    ensures { NoFiringIsCounted }
{}

/// A callout past the last one is not armed.
pub fn no_alarm_past_the_last()
    ensures { NoAlarmPastTheLast }
{}
