//! Why a call is refused.
ghost use Rattle.std.specs.Prelude.{◌≡◌};
ghost use Rattle.co_embed.specs.Refusals.{errno, status_of};

/// Why a call is refused: then nothing has changed.
#[derive(Clone, Copy, Debug, PartialEq, Eq)]
pub enum Refusal {
    /// `EPERM`: no service is there that the call could go on with.
    NotInService,
    /// `ENOENT`: the callout is not at this CPU.
    NotHere,
    /// `EAGAIN`: there is nothing to service, or nothing armed.
    Nothing,
    /// `ENOMEM`: there is no memory.
    NoMemory,
    /// `EBUSY`: the callout is armed or in service, or a service is under way.
    Busy,
    /// `EEXIST`: the callout is here already.
    Exists,
    /// `EINVAL`: a value is out of its range.
    Invalid,
}

impl Refusal {
    /// The number by which POSIX systems know it, as Linux and FreeBSD have them below 35 (`EAGAIN` is Linux's), negative.
    pub fn errno(self) -> i32
        ensures { result ≡ errno self }
    {
        match self {
            Refusal::NotInService => -1,
            Refusal::NotHere => -2,
            Refusal::Nothing => -11,
            Refusal::NoMemory => -12,
            Refusal::Busy => -16,
            Refusal::Exists => -17,
            Refusal::Invalid => -22,
        }
    }
}

/// 0, or why not.
pub fn status(answer: Result<(), Refusal>) -> i32
    ensures { result ≡ status_of answer }
{
    match answer {
        Ok(()) => 0,
        Err(refusal) => refusal.errno(),
    }
}
