//! The end of a child in memory that never fails.

ghost use Rattle.std.specs.Prelude.{None};

use crate::waited::Waited;
use chan_io::Failed;

/// The end of a child, with the same status at each wait. It tells nothing, and its count of faults is 0 for
/// good.
#[derive(Clone, Copy, Debug)]
pub struct SteadyChildEnd {
    status: i32,
}

impl SteadyChildEnd {
    /// The end of a child with this status.
    pub fn new(status: i32) -> SteadyChildEnd {
        SteadyChildEnd { status }
    }
}

impl Waited for SteadyChildEnd {
    ghost statuses = { λ _. None };

    ghost faults = { λ _. 0 };

    fn wait(&mut self) -> Result<i32, Failed> {
        Ok(self.status)
    }
}
