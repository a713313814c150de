//! Draws that never fail.

ghost use Rattle.std.specs.Prelude.{None};

use crate::entropy::Entropy;
use crate::failed::Failed;

/// One draw, given again and again. It tells no draws to come, and its count of faults is 0 for good.
#[derive(Clone, Copy, Debug)]
pub struct SteadyEntropy {
    drawn: [u8; 16],
}

impl SteadyEntropy {
    /// This draw.
    pub fn new(drawn: [u8; 16]) -> SteadyEntropy {
        SteadyEntropy { drawn }
    }
}

impl Entropy for SteadyEntropy {
    ghost draws = { λ _. None };

    ghost fault_count = { λ _. 0 };

    fn draw(&mut self) -> Result<[u8; 16], Failed> {
        Ok(self.drawn)
    }

    fn faults(&self) -> u64 {
        0
    }
}
