//! A spawner that starts no thread and never fails.

use crate::spawner::Spawner;
use crate::start::{NoThread, Start};

/// A spawner whose jobs run where they are joined. Its count of faults is 0 for good.
#[derive(Clone, Copy, Debug)]
pub struct SteadySpawner;

impl Spawner for SteadySpawner {
    ghost faults = { λ _. 0 };

    ghost makes_threads = { λ _. ⊥ };

    fn choose(&mut self) -> Start {
        Start::Late
    }

    fn refused(&mut self, _none: NoThread) {}

    fn twin(&self) -> SteadySpawner {
        SteadySpawner
    }

    fn merge(&mut self, _twin: SteadySpawner) {}
}
