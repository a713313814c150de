//! A starter of children in memory, of which chosen starts fail.

ghost use Rattle.std.specs.Prelude.{◌≡◌};

use crate::child::Child;
use crate::failing::Failing;
use crate::faulty_child_end::FaultyChildEnd;
use crate::program::Program;
use crate::starter::Starter;
use chan_io::{Failed, FaultySink, FaultySource, Text};
use std::alloc::Global;
use std::marker::Model;

/// A starter whose children do what a list says, one after another, whatever their names; after the last
/// one no start succeeds. The starts whose numbers are in the second list fail too; the first start
/// is 0. Contracts see it as its count of faults.
#[derive(Debug, Drop)]
pub struct FaultyStarter {
    alloc: Global,
    programs: Vec<Program>,
    failing: Failing,
}

impl Model for FaultyStarter {
    ghost use Rattle.std.specs.Prelude.{ℕ};

    ghost Value = { ℕ };

    ghost view = { λ s. s.failing };
}

impl FaultyStarter {
    /// A starter that started nothing yet.
    pub fn new(alloc: Global, programs: Vec<Program>, failing: Vec<u64>) -> FaultyStarter
        ensures { result ≡ 0 }
    {
        FaultyStarter {
            alloc,
            programs,
            failing: Failing::new(failing),
        }
    }
}

impl Starter for FaultyStarter {
    type Stdin = FaultySink;

    type Stdout = FaultySource;

    type Stderr = FaultySource;

    type End = FaultyChildEnd;

    ghost faults = { λ s. s };

    fn start(
        &mut self,
        _program: &Text,
    ) -> Result<Child<FaultySink, FaultySource, FaultySource, FaultyChildEnd>, Failed> {
        self.failing.call()?;
        if self.programs.is_empty() {
            return Err(self.failing.fail());
        }
        Ok(self.programs.remove(0).child(self.alloc))
    }
}
