//! What a worker passes at the beginning of each turn.

/// Called by each worker at the beginning of each of its turns. A test can hold workers there.
pub trait Gate: Sync {
    /// This worker begins this turn, counted from 1.
    fn mark(&self, worker: u32, turn: u64);
}

/// The gate that holds nobody.
#[derive(Clone, Copy, Debug)]
pub struct OpenGate;

impl Gate for OpenGate {
    fn mark(&self, _worker: u32, _turn: u64) {}
}
