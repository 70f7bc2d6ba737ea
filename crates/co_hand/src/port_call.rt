//! A call through a port, and its answer.
use co_object::{PlainOp, Reply};

/// What a port answers.
#[derive(Clone, Copy, Debug, PartialEq, Eq)]
pub enum PortReply {
    /// The callout's reply.
    Reply(Reply),
    /// The call was not made, since the caller's hold doesn't cover it.
    NotHeld,
}

/// A call that was made through a port.
#[derive(Clone, Copy, Debug, PartialEq, Eq)]
pub struct PortCall {
    /// The callout, by its number.
    pub i: u32,
    /// What was asked of it.
    pub op: PlainOp,
    /// What was answered: a reply, or that the call was not made.
    pub answer: PortReply,
}
