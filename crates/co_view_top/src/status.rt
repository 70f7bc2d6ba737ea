//! How a call ends.
ghost use Rattle.std.specs.Prelude.{◌≡◌};
ghost use Rattle.co_view_top.specs.Statuses.{exit_status};

/// How a call of the program ends. Our own decision.
#[derive(Clone, Copy, Debug, PartialEq, Eq)]
pub enum Status {
    /// The view was written.
    Done,
    /// The input is no report; its first bad line and the cause were written.
    BadReport,
    /// The words are no view; the usage line was written.
    Usage,
    /// The source failed. Nothing was written.
    ReadFault,
    /// The sink failed, or took nothing, which a sink that tells room for the text never does; a proper front of the text was
    /// written.
    WriteFault,
    /// There was not enough memory. Nothing was written.
    NoMemory,
    /// The report's notes have no order; the first line whose note is left was written.
    NoOrder,
}

impl Status {
    /// The exit status of the program: 0 to 6, in the order of the statuses, which is that of `callout`.
    pub fn exit_status(self) -> u8
        ensures { result ≡ exit_status self }
    {
        match self {
            Status::Done => 0,
            Status::BadReport => 1,
            Status::Usage => 2,
            Status::ReadFault => 3,
            Status::WriteFault => 4,
            Status::NoMemory => 5,
            Status::NoOrder => 6,
        }
    }
}
