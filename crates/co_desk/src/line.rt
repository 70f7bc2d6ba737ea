//! What the shared histories hold.
use crate::Params;
use co_life::Shown;

/// An entry of a shared history. It begins with an opening entry of each actor, so whoever has a pass of it knows of
/// which place it is, and of which service.
#[derive(Drop)]
pub enum Line<E> {
    /// An actor's opening entry. What it carries stands in the proofs alone.
    Opening {
        /// The number of the actor whose it is.
        actor: u32,
        /// The number of the callout, or of the CPU.
        place: u32,
        /// What is fixed of the service.
        params: Shown<Params>,
    },
    /// An entry that a call made.
    Made(E),
}
