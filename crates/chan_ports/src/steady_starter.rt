//! A starter of children in memory that never fails.

use crate::child::Child;
use crate::starter::Starter;
use crate::steady_child_end::SteadyChildEnd;
use chan_io::{DiscardSink, Failed, SteadySource, Text};
use std::alloc::Global;

/// A starter whose children write and report nothing, and end with one status. Its count of faults is 0
/// for good.
#[derive(Debug, Drop)]
pub struct SteadyStarter {
    alloc: Global,
    status: i32,
}

impl SteadyStarter {
    /// A starter of children with this status.
    pub fn new(alloc: Global, status: i32) -> SteadyStarter {
        SteadyStarter { alloc, status }
    }
}

impl Starter for SteadyStarter {
    type Stdin = DiscardSink;

    type Stdout = SteadySource;

    type Stderr = SteadySource;

    type End = SteadyChildEnd;

    ghost faults = { λ _. 0 };

    fn start(
        &mut self,
        _program: &Text,
    ) -> Result<Child<DiscardSink, SteadySource, SteadySource, SteadyChildEnd>, Failed> {
        Ok(Child {
            stdin: DiscardSink,
            stdout: SteadySource::new(Vec::new(self.alloc)),
            stderr: SteadySource::new(Vec::new(self.alloc)),
            end: SteadyChildEnd::new(self.status),
        })
    }
}
