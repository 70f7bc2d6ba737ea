//! The scenes that are played.
/// What the actors of a service do, from its opening on.
pub enum Scene {
    /// One who has the service to himself makes all calls.
    Alone,
    /// A direct callout is serviced by its CPU's interrupt.
    Direct,
    /// A callout moves to another CPU when its service ends.
    Moved,
    /// A callout is stopped while its service waits for a mutex.
    Waiting,
    /// The calls tell in few words what they did.
    InWords,
}
