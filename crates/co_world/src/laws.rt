//! What holds of every schedule of a script's actors, each law as a function that does nothing.
ghost use Rattle.std.specs.Prelude.{ℕ, List};
ghost use Rattle.co_object.specs.Lists.{IsWellFormed};
ghost use Rattle.co_program.specs.declared.Script.{Script};
ghost use Rattle.co_world.specs.World.{lists_of};
ghost use Rattle.co_world.specs.Laws.{AreOfLists, BeginsUnderLock, EachFinishedActorFollows, EveryStepFalls, HaveReplies, HistoriesAreLegal, IdleStepsStay, IsSchedule, NoRemoveIsMissing, NoScheduleIsStuck, NotesHavePlaces, NotesNameWhatExists, OpeningFits, RoundsFall, TurnsTell, WalksAgree, WalksAreRuns, WalksEnd, WalksNameWhatExists, reached};

/// The positions of each place are 0, 1, 2, .., each once, and rise in each actor's list.
pub fn well_formed()
    ensures { (s : Script) (schedule : List ℕ) → IsSchedule s schedule → IsWellFormed (lists_of s (reached s schedule)) }
{}

/// The histories that the lists of notes show are those of the world.
pub fn lists_show_histories()
    ensures { (s : Script) (schedule : List ℕ) → IsSchedule s schedule → AreOfLists s (reached s schedule) }
{}

/// Each entry is possible where it stands, and its reply is that of the plain object.
pub fn replies_are_the_objects()
    ensures { (s : Script) (schedule : List ℕ) → HaveReplies s (reached s schedule) }
{}

/// An actor that begins a service holds the callout's lock.
pub fn begins_under_lock()
    ensures { (s : Script) (schedule : List ℕ) → BeginsUnderLock s (reached s schedule) }
{}

/// An actor that has finished has notes that follow its program.
pub fn finished_follow()
    ensures { EachFinishedActorFollows }
{}

/// Each callout's history and each CPU's journal is legal.
pub fn histories_are_legal()
    ensures { HistoriesAreLegal }
{}

/// A call that takes an arming out of a queue finds it there.
pub fn no_remove_is_missing()
    ensures { NoRemoveIsMissing }
{}

/// While an actor is unfinished, some unfinished actor can step.
pub fn never_stuck()
    ensures { NoScheduleIsStuck }
{}

/// Each note stands in a place of the script.
pub fn notes_have_places()
    ensures { NotesHavePlaces }
{}

/// What each note names exists in the script, its actor, callouts, CPUs and functions, where the functions that the script's
/// acts name do; each entry is of its place's kind, and the answer of each queue is one to its operation.
pub fn notes_name_what_exists()
    ensures { NotesNameWhatExists }
{}

/// What each note of a script's walk names exists in the script, where the functions that the script's acts name do.
pub fn walks_name_what_exists()
    ensures { WalksNameWhatExists }
{}

/// A script's walk is a run of it: its lists are well formed, each callout's history and each CPU's journal is legal, no
/// Remove misses, and each actor's notes follow its whole program.
pub fn walks_are_runs()
    ensures { WalksAreRuns }
{}

/// A script's walk has one result.
pub fn walks_agree()
    ensures { WalksAgree }
{}

/// Round robin comes to an end.
pub fn walks_end()
    ensures { WalksEnd }
{}

/// What is left to do falls with every step that is made.
pub fn every_step_falls()
    ensures { EveryStepFalls }
{}

/// A step of an actor that has finished or is blocked changes nothing.
pub fn idle_steps_stay()
    ensures { IdleStepsStay }
{}

/// What is left to do falls with every round until all actors have finished.
pub fn rounds_fall()
    ensures { RoundsFall }
{}

/// What is left to do at the opening fits 64 bits.
pub fn opening_fits()
    ensures { OpeningFits }
{}

/// What the answers of steps tell: why a step has to wait, that a program has ended, or how many notes were made.
pub fn turns_tell()
    ensures { TurnsTell }
{}
