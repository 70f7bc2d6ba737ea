//! The gate before each act.

/// A gate, through which an actor goes before each of its acts, those of functions included.
///
/// It changes no value of the service. It may wait, so it holds actors back where a schedule is to be forced: a gate that
/// waits has the runtime by which it does as a part of its type.
pub trait Gate {
    /// The actor is about to begin its act of this number.
    fn at(&self, actor: u32, act: u64);
}

/// A gate that is always open.
#[derive(Clone, Copy)]
pub struct OpenGate {}

impl Gate for OpenGate {
    fn at(&self, _actor: u32, _act: u64) {}
}
