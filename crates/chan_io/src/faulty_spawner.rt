//! A spawner that starts no thread, of which chosen starts fail.

ghost use Rattle.std.specs.Prelude.{◌≡◌};

use crate::failing::Failing;
use crate::spawner::Spawner;
use crate::start::{NoThread, Start};
use std::alloc::Global;
use std::marker::Model;

/// A spawner whose jobs run where they are joined. The starts whose numbers are in the list fail; the
/// first start is 0. A twin's starts don't fail. Contracts see it as its count of faults.
#[derive(Debug, Drop)]
pub struct FaultySpawner {
    alloc: Global,
    failing: Failing,
}

impl Model for FaultySpawner {
    ghost use Rattle.std.specs.Prelude.{ℕ};

    ghost Value = { ℕ };

    ghost view = { λ s. s.failing };
}

impl FaultySpawner {
    /// A spawner that started nothing yet.
    pub fn new(alloc: Global, failing: Vec<u64>) -> FaultySpawner
        ensures { result ≡ 0 }
    {
        FaultySpawner {
            alloc,
            failing: Failing::new(failing),
        }
    }
}

impl Spawner for FaultySpawner {
    ghost faults = { λ s. s };

    ghost makes_threads = { λ _. ⊥ };

    fn choose(&mut self) -> Start {
        if self.failing.fails() {
            self.failing.count();
            return Start::Fail;
        }
        Start::Late
    }

    fn refused(&mut self, _none: NoThread) {}

    fn twin(&self) -> FaultySpawner {
        FaultySpawner::new(self.alloc, Vec::new(self.alloc))
    }

    fn merge(&mut self, twin: FaultySpawner) {
        self.failing.merge(twin.failing);
    }
}
