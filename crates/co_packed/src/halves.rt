//! The operation and the reply of an entry of any history, each by itself.
use co_object::{Op, OwnKind, QOp, QReply, Reply};

/// An operation.
#[derive(Drop)]
pub enum AnyOp {
    /// On a callout.
    Timer(Op),
    /// On a CPU's timer queue.
    Cpu(QOp),
    /// What an actor notes of itself.
    Own(OwnKind),
}

/// A reply.
#[derive(Drop)]
pub enum AnyReply {
    /// A callout's.
    Timer(Reply),
    /// A CPU's timer queue's.
    Cpu(QReply),
    /// What an actor notes of itself has none.
    Own,
}
