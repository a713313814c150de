//! Who is at the other end of a connection in memory.

ghost use Rattle.std.specs.Prelude.{◌≡◌, false, []};
ghost use Rattle.chan_io.specs.Sources.{fresh};

use chan_io::{FaultySink, FaultySource};
use std::alloc::Global;

/// What a connection in memory gives, and which of its calls fail, by their numbers from 0.
#[derive(Debug, Drop)]
pub struct Peer {
    /// The bytes that can be read from it.
    pub sends: Vec<u8>,
    /// The reads that fail.
    pub failing_reads: Vec<u64>,
    /// The writes and finishes that fail.
    pub failing_writes: Vec<u64>,
}

impl Peer {
    /// The two halves of its connection.
    pub(crate) fn ends(self, alloc: Global) -> (FaultySource, FaultySink)
        ensures input { result.0 ≡ record { input = fresh self.sends.items; faults = 0 } }
        ensures output { result.1
            ≡ record { output = record { taken = []; finished = false }; faults = 0 } }
    {
        let input = FaultySource::new(self.sends, self.failing_reads);
        let output = FaultySink::new(alloc, self.failing_writes);
        (input, output)
    }
}
