//! What the seats of a life's table know. No value of these types is made: they stand in the proofs alone.
use std::collections::LinkedList;

/// An actor, and what it has seen of the history.
pub struct Glance<E> {
    /// The actor's number.
    pub actor: u64,
    /// The front of the history that it has seen.
    pub seen: LinkedList<E>,
}

/// What one seat knows.
pub enum SeatView<E> {
    /// The keeper's: the whole history, the number of passes made, and the pass that is inside for the time of a call.
    Keeps {
        history: LinkedList<E>,
        made: u64,
        inside: Option<Glance<E>>,
    },
    /// That of a seat with a pass: its actor, and what that has seen.
    Has(Glance<E>),
    /// That of a seat whose pass went inside: nothing any more.
    Spent,
}
