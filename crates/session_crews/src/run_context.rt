//! What all workers of one run share.

use session_run::{Held, Shelf};
use std::alloc::Global;
use std::sync::atomic::AtomicU32;
use std::thread::Scope;
use turn_lock::TurnLock;

/// What the deliverer and the workers of feeders share with the other workers of their run.
#[derive(Drop)]
pub struct RunContext<'s, 'e, R, C, G> {
    /// The runtime.
    pub rt: &'s R,
    /// The scope of the threads.
    pub scope: &'s Scope<'s, &'e ()>,
    /// The memory for what is kept of each worker that is started.
    pub alloc: Global,
    /// The lock over the end.
    pub ends: &'s TurnLock<Held>,
    /// The lock over the shelf.
    pub shelf: &'s TurnLock<Shelf>,
    /// The clock.
    pub clock: &'s C,
    /// What each worker passes at the beginning of each turn.
    pub gate: &'s G,
    /// From which the numbers of the feeders' workers are drawn.
    pub numbers: &'s AtomicU32,
    /// What was drawn for the ids of the run.
    pub base: [u8; 16],
}

impl<'s, 'e, R, C, G> RunContext<'s, 'e, R, C, G> {
    ghost use Rattle.std.specs.Prelude.{◌≡◌};

    /// The same for another worker.
    pub fn again(&self) -> RunContext<'s, 'e, R, C, G>
        ensures ends { result.ends.now ≡ self.now.ends.now }
        ensures shelf { result.shelf.now ≡ self.now.shelf.now }
        ensures base { result.base ≡ self.now.base }
    {
        RunContext {
            rt: self.rt,
            scope: self.scope,
            alloc: self.alloc,
            ends: self.ends,
            shelf: self.shelf,
            clock: self.clock,
            gate: self.gate,
            numbers: self.numbers,
            base: self.base,
        }
    }
}
