//! How a call ends.
ghost use Rattle.std.specs.Prelude.{◌≡◌};
ghost use Rattle.co_top.specs.Statuses.{exit_status};

use co_service::Closing;

/// How a call of the program ends. Our own decision.
#[derive(Clone, Copy, Debug, PartialEq, Eq)]
pub enum Status {
    /// The command's text was written.
    Done,
    /// The input is no accepted script; its first bad line and the cause were written.
    BadScript,
    /// The words are no command; the usage line was written.
    Usage,
    /// The source failed. Nothing was written.
    ReadFault,
    /// The sink failed, or took nothing, which a sink that tells room for the text never does; a proper front of the text was
    /// written.
    WriteFault,
    /// There was not enough memory. Nothing was written.
    NoMemory,
    /// The report is not legal; its first bad line and the cause were written.
    NotLegal,
}

/// How a call of the program ends, with what is left of the service that its command worked on: a closing is there exactly where
/// `run`, `kq`, `sleep` or `itimer` is done.
#[derive(Drop)]
pub struct Finish {
    /// How it ends.
    pub status: Status,
    /// The histories of the service's callouts and CPUs: of `run` those that the report shows.
    pub closing: Option<Closing>,
}

impl Status {
    /// The exit status of the program: 0 to 6, in the order of the statuses.
    pub fn exit_status(self) -> u8
        ensures { result ≡ exit_status self }
    {
        match self {
            Status::Done => 0,
            Status::BadScript => 1,
            Status::Usage => 2,
            Status::ReadFault => 3,
            Status::WriteFault => 4,
            Status::NoMemory => 5,
            Status::NotLegal => 6,
        }
    }
}
