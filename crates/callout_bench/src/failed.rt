//! Why a run came to nothing.
use co_sbt::NoMemory;

/// Why a run came to nothing.
#[derive(Clone, Copy, Drop)]
pub enum Failed {
    /// The words say nothing that can be measured.
    Words,
    /// The input is no script.
    Script,
    /// The input can't be read.
    Input,
    /// The counts can't be written.
    Output,
    /// There was too little memory.
    NoMemory,
}

impl Failed {
    /// The program's exit status, as that of `callout`.
    pub fn exit_status(self) -> u8 {
        match self {
            Failed::Script => 1,
            Failed::Words => 2,
            Failed::Input => 3,
            Failed::Output => 4,
            Failed::NoMemory => 5,
        }
    }

    /// What was made; `NoMemory` where there was no room for it.
    pub fn of<T>(made: Result<T, NoMemory>) -> Result<T, Failed> {
        match made {
            Ok(made) => Ok(made),
            Err(NoMemory {}) => Err(Failed::NoMemory),
        }
    }
}
