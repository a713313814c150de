//! A spawner that starts a thread for each worker.

use chan_io::{NoThread, Spawner, Start};
use std::alloc::Global;

/// A spawner that starts a thread for each worker, but for the starts whose numbers are in the
/// list, which fail; the first start is 0. A twin's starts don't fail.
#[derive(Drop)]
pub(crate) struct InThreads {
    alloc: Global,
    unstarted: &'static [u64],
    starts: u64,
    refused: u64,
}

impl InThreads {
    /// A spawner that started nothing yet.
    pub(crate) fn new(alloc: Global, unstarted: &'static [u64]) -> InThreads {
        InThreads {
            alloc,
            unstarted,
            starts: 0,
            refused: 0,
        }
    }

    /// Whether the start with this number fails.
    fn is_unstarted(&self, place: u64) -> bool {
        for unstarted in self.unstarted {
            if *unstarted == place {
                return true;
            }
        }
        false
    }
}

impl Spawner for InThreads {
    ghost faults = { λ s. s.refused };

    ghost makes_threads = { λ _. Unit {0} };

    fn choose(&mut self) -> Start {
        let place = self.starts;
        self.starts = place.saturating_add(1);
        if self.is_unstarted(place) {
            self.refused = self.refused.saturating_add(1);
            return Start::Fail;
        }
        Start::Thread(self.alloc)
    }

    fn refused(&mut self, _none: NoThread) {
        self.refused = self.refused.saturating_add(1);
    }

    fn twin(&self) -> InThreads {
        InThreads {
            alloc: self.alloc,
            unstarted: &[],
            starts: 0,
            refused: 0,
        }
    }

    fn merge(&mut self, twin: InThreads) {
        if twin.refused > 0 {
            self.refused = self.refused.saturating_add(twin.refused);
        }
    }
}
