//! What holds of every run of a script, each law the contract of a function that does nothing.
ghost use Rattle.co_program.specs.Laws.{ActsMakeTheirNotes, CallsAreGroups, DrainsAreGroups, FunctionsMakeTheirActs, ProgramsEndWhereNothingIsLeft, RoundsAreOfServices, RunsNameWhatExists, SoftActsBeginWithRounds};

/// What each note of a run names exists in the script, its actor, callouts, CPUs and functions, where the functions that the
/// script's acts name do; each entry is of its place's kind, and the answer of each queue is one to its operation.
pub fn runs_name_what_exists()
    ensures { RunsNameWhatExists }
{}

/// The list of each actor is that of its program: the notes of its acts, in order, each with its act's number, and no others. What
/// an act makes is told by the act (`specs/Programs`), and by no cursor.
///
/// Each call of a client (a reset, a `ticks`, a schedule, a stop, an asynchronous drain, `active`, `pending`, a deactivation, an
/// init, a retirement) makes the group of exactly that call on exactly that callout, at the client's time and CPU, or the note
/// NotHeld where what the client holds does not cover it; a drain the groups of its tries, or HoldsLock where it holds a lock; a
/// lock nothing, or Holding where it holds one already; an unlock nothing, or NotHolding where it holds none; and `now` nothing.
///
/// Each tick of a CPU, in version 2 of its interrupt, makes the Scan of that CPU at that time, rounds of services, and a Pop that
/// finds nothing. A soft act of a CPU makes the same without a Scan; before the first Pop of the j-th, counted from 0, at least
/// j + 1 Scans stand in the CPU's history.
pub fn acts_make_their_notes()
    ensures { ActsMakeTheirNotes }
{}

/// Where an actor's program makes a call, the actor holds what covers it, and its next notes are the call's group: a Remove
/// from the CPU that the reply names, where it names one; the callout's entry, which stands in its history; and an Insert into
/// the arming's CPU, where the call armed the callout and the arming is listed.
pub fn calls_are_groups()
    ensures { CallsAreGroups }
{}

/// Where it makes a drain, its next notes are the groups of any number of tries that wait, and then of one that is done. The
/// first try took nothing, and each later one knows whether an earlier one took an arming away.
pub fn drains_are_groups()
    ensures { DrainsAreGroups }
{}

/// Wherever the notes of an actor's list lead, its program has ended exactly where nothing is left to do, no lock is held, no
/// stage of an act is open and no callout is on its way; and so it is after all its notes.
pub fn programs_end_where_nothing_is_left()
    ensures { ProgramsEndWhereNothingIsLeft }
{}

/// Where the acts of a function, or of a drain function, come next in a service, the next notes are theirs, one act after the
/// other with its number: the group of its call, or NotHeld where what the actor holds does not cover it.
pub fn functions_make_their_acts()
    ensures { FunctionsMakeTheirActs }
{}

/// Where a CPU or its interrupt is about to take the next callout from its queue, its next notes are a Pop that finds nothing, or
/// a round: the Pop that takes an arming; its Pick; the function's acts, after a Begin under the callout's lock where it has
/// one, which may skip them; the End and the Free; the Insert of an arming that the end sends to its CPU; and the acts of the
/// drain function that the end names.
pub fn rounds_are_of_services()
    ensures { RoundsAreOfServices }
{}

/// Where the j-th soft act comes next, which in version 2 is a CPU's for its interrupt's j-th tick, counted from 0, its first note
/// is a Pop, before which at least j + 1 Scans stand in its CPU's history. That Pop finds nothing, or begins a round as above, in
/// the act of the next number.
pub fn soft_acts_begin_with_rounds()
    ensures { SoftActsBeginWithRounds }
{}
