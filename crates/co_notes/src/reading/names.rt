//! What notes may name in a script.
ghost use Rattle.std.specs.Prelude.{◌≡◌};
ghost use Rattle.co_notes.specs.NoteValues.{names_of, IsSmallScript, HasFewActors};

use co_program::Script;

/// Below which numbers the names of notes are, in a script.
#[derive(Clone, Copy)]
pub struct Names {
    /// The number of callouts: `iN` is below it.
    pub timers: u32,
    /// The number of CPUs: `pN` is below it, and so is `hN`.
    pub cpus: u32,
    /// The number of functions: `fN` is below it.
    pub funcs: u32,
    /// The number of clients: `cN` is below it.
    pub clients: u32,
    /// The version, 1 or 2: `hN` is of version 2.
    pub version: u32,
}

/// What notes may name in a script.
pub fn names_of(script: &Script) -> Names
    requires { IsSmallScript script.now }
    ensures value { result ≡ names_of script.now }
    ensures few { HasFewActors result }
{
    Names {
        timers: script.timers.as_slice().len() as u32,
        cpus: script.cpus,
        funcs: script.funcs.as_slice().len() as u32,
        clients: script.clients.as_slice().len() as u32,
        version: script.version,
    }
}
