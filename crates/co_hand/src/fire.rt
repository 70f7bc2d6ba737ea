//! What a handler is told of a service.
use co_sbt::Sbt;

/// The service of a callout, in which its function is to run, or the function of an asynchronous drain.
#[derive(Clone, Copy, Debug, PartialEq, Eq)]
pub struct Fire {
    /// The callout, by its number.
    pub i: u32,
    /// The number of its arming.
    pub n: u64,
    /// The function of the arming.
    pub func: u32,
    /// The argument of the arming.
    pub arg: u64,
    /// The CPU whose queue gave the callout.
    pub cpu: u32,
    /// The time of that queue's last scan, in units of 2^-32 s. It is now in the function.
    pub at: Sbt,
}
