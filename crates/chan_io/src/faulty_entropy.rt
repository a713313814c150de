//! Known draws, of which chosen ones fail.

ghost use Rattle.std.specs.Prelude.{◌≡◌, Some};

use crate::entropy::Entropy;
use crate::failed::Failed;
use crate::failing::Failing;
use std::marker::Model;

/// Known draws. The calls whose numbers are in the list fail, and all calls after the last draw; the
/// first call is 0.
#[derive(Debug, Drop)]
pub struct FaultyEntropy {
    draws: Vec<[u8; 16]>,
    at: usize,
    failing: Failing,
}

impl Model for FaultyEntropy {
    ghost use Rattle.std.specs.Prelude.{drop};
    ghost use Rattle.chan_io.specs.Draws.{MemoryEntropy};

    ghost Value = { MemoryEntropy };

    ghost view = { λ e. record { draws = drop e.at e.draws.items; faults = e.failing } };
}

impl FaultyEntropy {
    /// These draws, of which none was made yet.
    pub fn new(draws: Vec<[u8; 16]>, failing: Vec<u64>) -> FaultyEntropy
        ensures { result ≡ record { draws = draws.items; faults = 0 } }
    {
        FaultyEntropy {
            draws,
            at: 0,
            failing: Failing::new(failing),
        }
    }
}

impl Entropy for FaultyEntropy {
    ghost draws = { λ e. Some e.draws };

    ghost fault_count = { λ e. e.faults };

    fn draw(&mut self) -> Result<[u8; 16], Failed> {
        match self.draws.get(self.at) {
            Some(drawn) if !self.failing.fails() => {
                self.at += 1;
                Ok(*drawn)
            }
            _ => {
                self.failing.count();
                Err(Failed)
            }
        }
    }

    fn faults(&self) -> u64 {
        self.failing.faults()
    }
}
