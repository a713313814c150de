//! A spawner of threads.

use chan_io::{NoThread, Spawner, Start};
use std::alloc::Global;
use std::marker::Model;

/// A spawner that starts a thread for each job, and counts those for which none could be made. Contracts
/// see it as that count.
#[derive(Debug, Drop)]
pub struct ThreadSpawner {
    alloc: Global,
    faults: u64,
}

impl Model for ThreadSpawner {
    ghost use Rattle.std.specs.Prelude.{ℕ};

    ghost Value = { ℕ };

    ghost view = { λ s. s.faults };
}

impl ThreadSpawner {
    ghost use Rattle.std.specs.Prelude.{◌≡◌};

    /// A spawner that started nothing yet. The allocator is for the flag that a thread and its starter
    /// share.
    pub fn new(alloc: Global) -> ThreadSpawner
        ensures { result ≡ 0 }
    {
        ThreadSpawner { alloc, faults: 0 }
    }
}

impl Spawner for ThreadSpawner {
    ghost faults = { λ s. s };

    ghost makes_threads = { λ _. Unit {0} };

    fn choose(&mut self) -> Start {
        Start::Thread(self.alloc)
    }

    fn refused(&mut self, _none: NoThread) {
        self.faults = self.faults.saturating_add(1);
    }

    fn twin(&self) -> ThreadSpawner {
        ThreadSpawner::new(self.alloc)
    }

    fn merge(&mut self, twin: ThreadSpawner) {
        self.faults = self.faults.saturating_add(twin.faults);
    }
}
