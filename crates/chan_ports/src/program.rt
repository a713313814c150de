//! What a child in memory does.

ghost use Rattle.std.specs.Prelude.{◌≡◌, false, []};
ghost use Rattle.chan_io.specs.Sources.{fresh};

use crate::child::Child;
use crate::faulty_child_end::FaultyChildEnd;
use chan_io::{FaultySink, FaultySource};
use std::alloc::Global;

/// What a child in memory writes and ends with, and which calls of its ends fail, by their numbers from 0.
#[derive(Debug, Drop)]
pub struct Program {
    /// What it writes.
    pub writes: Vec<u8>,
    /// What it reports.
    pub reports: Vec<u8>,
    /// Its status.
    pub status: i32,
    /// The writes to its input, and finishes of it, that fail.
    pub failing_input: Vec<u64>,
    /// The reads of what it writes that fail.
    pub failing_output: Vec<u64>,
    /// The reads of what it reports that fail.
    pub failing_errors: Vec<u64>,
    /// The waits for its end that fail.
    pub failing_waits: Vec<u64>,
}

impl Program {
    /// The child that does this.
    pub(crate) fn child(
        self,
        alloc: Global,
    ) -> Child<FaultySink, FaultySource, FaultySource, FaultyChildEnd>
        ensures stdin { result.stdin
            ≡ record { output = record { taken = []; finished = false }; faults = 0 } }
        ensures stdout { result.stdout ≡ record { input = fresh self.writes.items; faults = 0 } }
        ensures stderr { result.stderr ≡ record { input = fresh self.reports.items; faults = 0 } }
        ensures end { result.end ≡ record { statuses = []; faults = 0 } }
    {
        Child {
            stdin: FaultySink::new(alloc, self.failing_input),
            stdout: FaultySource::new(self.writes, self.failing_output),
            stderr: FaultySource::new(self.reports, self.failing_errors),
            end: FaultyChildEnd::new(alloc, self.status, self.failing_waits),
        }
    }
}
