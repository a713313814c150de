//! The end of a child in memory, of which chosen calls fail.

ghost use Rattle.std.specs.Prelude.{◌≡◌, [], Some};

use crate::failing::Failing;
use crate::waited::Waited;
use chan_io::Failed;
use std::alloc::Global;
use std::marker::Model;

/// The end of a child, with the same status at each wait. The calls whose numbers are in the list fail; the
/// first call is 0. A call also fails where it has no memory.
#[derive(Debug, Drop)]
pub struct FaultyChildEnd {
    status: i32,
    answered: Vec<i32>,
    failing: Failing,
}

impl Model for FaultyChildEnd {
    ghost use Rattle.chan_ports.specs.Waits.{MemoryChildEnd};

    ghost Value = { MemoryChildEnd };

    ghost view = { λ e. record { statuses = e.answered.items; faults = e.failing } };
}

impl FaultyChildEnd {
    /// The end of a child that was not waited for yet.
    pub fn new(alloc: Global, status: i32, failing: Vec<u64>) -> FaultyChildEnd
        ensures { result ≡ record { statuses = []; faults = 0 } }
    {
        FaultyChildEnd {
            status,
            answered: Vec::new(alloc),
            failing: Failing::new(failing),
        }
    }

    /// The statuses that it answered.
    pub fn statuses(&self) -> &[i32]
        ensures { result.now ≡ self.now.statuses }
    {
        self.answered.as_slice()
    }
}

impl Waited for FaultyChildEnd {
    ghost statuses = { λ e. Some e.statuses };

    ghost faults = { λ e. e.faults };

    fn wait(&mut self) -> Result<i32, Failed> {
        self.failing.call()?;
        if self.answered.push(self.status).is_err() {
            return Err(self.failing.fail());
        }
        Ok(self.status)
    }
}
