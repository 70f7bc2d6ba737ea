//! The head of a note: which entry it is, and by whom.
use co_object::Place;

/// The part of a note that tells which entry it is, and who made it.
#[derive(Clone, Copy, Debug)]
pub struct Head {
    /// Whose history has the entry.
    pub place: Place,
    /// The entry's position in that history, counted from 0.
    pub pos: u64,
    /// Who made the entry.
    pub actor: u32,
}
