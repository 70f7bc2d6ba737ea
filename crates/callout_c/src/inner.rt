//! What a handle leads to.
use co_embed::Embed;

/// What the box of a handle holds.
#[derive(Drop)]
pub struct Inner {
    /// A CPU's callouts and its timer queue.
    pub embed: Embed,
}
