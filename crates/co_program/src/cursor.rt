//! An actor's place in its program, by index. That a service takes the callout's lock before the function runs, and
//! releases it after unless the function does, is of the callout(9) page; the order of all else is our own.
ghost use Rattle.std.specs.Prelude.{◌≡◌, ℕ};
ghost use Rattle.co_program.specs.declared.script.Script.{Script};
ghost use Rattle.co_program.specs.Cursor.{start_of};
ghost use Rattle.co_program.specs.Existing.{IsIn};
ghost use Rattle.co_program.specs.Indexed.{cursor_of};
ghost use Rattle.co_program.specs.Scripts.{IsScript};

use co_lock::Held;
use co_object::Next;
use co_sbt::Sbt;

/// The service of a callout in an act.
#[derive(Clone, Copy)]
pub struct InService {
    /// The number of the act.
    pub act: u64,
    /// The callout.
    pub i: u32,
    /// The number of its arming.
    pub n: u64,
    /// The time of the CPU's last scan before its Pop, in units of 2^-32 s: the function's now.
    pub at: Sbt,
}

/// An Insert that is still to come: the callout is on its way into a CPU's queue.
#[derive(Clone, Copy)]
pub struct PendingInsert {
    /// The number of the act.
    pub act: u64,
    /// The callout.
    pub i: u32,
    /// The number of its arming.
    pub n: u64,
    /// When that is due, in units of 2^-32 s.
    pub due: Sbt,
    /// The CPU into whose queue it goes.
    pub cpu: u32,
}

/// What is left of a function's acts.
#[derive(Clone, Copy)]
pub struct ActsLeft {
    /// The function, by its number. One that the script does not have has no acts.
    pub func: u32,
    /// How many of its acts are over.
    pub done: u32,
}

/// The stage of the act under way.
#[derive(Clone, Copy)]
pub enum Stage {
    /// Between two acts.
    Ready,
    /// In a drain, which waits for the end of the service of arming `n`. `took` is whether one of its tries took an arming
    /// away.
    Waiting {
        n: u64,
        took: bool,
    },
    /// In a tick or a soft act, about to take the next callout from the queue.
    Popping {
        act: u64,
    },
    /// In a service, about to pick the arming.
    Picking(InService),
    /// About to take the callout's lock.
    Locking(InService),
    /// Under the lock, about to begin.
    Beginning(InService),
    /// About to release the lock, before the acts of a function that returns unlocked.
    Unlocking(InService, ActsLeft),
    /// In the callout's function.
    Firing(InService, ActsLeft),
    /// About to release the lock, after the function.
    Releasing(InService),
    /// About to end the service.
    Ending(InService),
    /// About to free the queue of it. `drain` is the function of an asynchronous drain that comes then, and `next` the
    /// arming that goes to another CPU.
    Freeing {
        service: InService,
        drain: Option<u32>,
        next: Option<Next>,
    },
    /// In the function of an asynchronous drain.
    Drained(InService, ActsLeft),
}

/// An actor's place in its program: what it has still to do, of which nothing is copied from the script.
#[derive(Clone, Copy)]
pub struct Cursor {
    /// How many acts of the program are over; the next one may be under way.
    pub task: u32,
    /// The number of the next act to begin, where the acts of functions count too.
    pub act: u64,
    /// The client's now, in units of 2^-32 s: the time of its last act `now`, 0 before the first.
    pub time: Sbt,
    /// The client lock that the actor holds, and in which mode.
    pub hold: Option<Held>,
    /// How far the act under way is.
    pub stage: Stage,
    /// The CPU from whose queue the call under way has just removed its callout.
    pub removed: Option<u32>,
    /// What the actor has still to insert, before all else.
    pub parcel: Option<PendingInsert>,
}

impl Cursor {
    /// The place before the first act of any program.
    pub fn start() -> Cursor
        ensures cursor { (s : Script) (actor : ℕ) → cursor_of s actor result ≡ start_of s actor }
        ensures existing { (s : Script) (actor : ℕ) → IsScript s → IsIn s (cursor_of s actor result) }
    {
        Cursor {
            task: 0,
            act: 0,
            time: Sbt::zero(),
            hold: None,
            stage: Stage::Ready,
            removed: None,
            parcel: None,
        }
    }
}
