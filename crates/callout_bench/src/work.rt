//! What a run is to do.
ghost use Rattle.std.specs.Prelude.{◌<◌, ◌≤◌, ◌+◌, ◌*◌};

/// What is done with a script.
#[derive(Clone, Copy)]
pub enum Task {
    /// It is read and no more.
    Read,
    /// It is run as `callout steps` does, without a report.
    Walk,
    /// Its world is stepped.
    Step,
    /// Everything is run briefly, on this script too.
    All,
}

/// Where the threads meet.
#[derive(Clone, Copy)]
pub enum Where {
    /// Each thread at a CPU, or a lock, of its own.
    Apart,
    /// All threads at one CPU, or at one lock.
    One,
}

/// Which calls threads make of a service. Each resets a callout and then stops it.
#[derive(Clone, Copy)]
pub enum Calls {
    /// Those that tell in few words what they did, each thread on callouts of its own.
    Told,
    /// Those that answer with their notes.
    Noted,
    /// Each reset sends the callout from one of two CPUs to the other.
    Moved,
    /// All threads call the same callouts, so that one is often not where its hint says.
    Shared,
}

impl Calls {
    /// The callout of a thread's call.
    pub fn callout(&self, thread: u32, call: u64) -> u32
        requires { thread < 15 }
        ensures { result < thread * 16 + 16 }
    {
        let own = (call % 16) as u32;
        match self {
            Calls::Shared => own,
            _ => thread * 16 + own,
        }
    }

    /// The CPU of a call by a thread that is at CPU `place`.
    pub fn cpu(&self, place: u32, call: u64) -> u32
        requires { place < 15 }
        ensures { result ≤ place + 1 }
    {
        match self {
            Calls::Moved => place + (call / 16 % 2) as u32,
            _ => place,
        }
    }
}

/// What a run is to do.
#[derive(Clone, Copy)]
pub struct Work {
    /// Where the threads meet.
    pub at: Where,
    /// How many there are, 1 to 15.
    pub threads: u32,
    /// How many calls of each kind a thread makes.
    pub calls: u64,
}

impl Work {
    /// The place of a thread: its CPU, or its lock.
    pub fn place(&self, thread: u32) -> u32
        ensures { result ≤ thread }
    {
        match self.at {
            Where::Apart => thread,
            Where::One => 0,
        }
    }
}
