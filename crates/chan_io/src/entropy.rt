//! Random bytes.

ghost use Rattle.std.specs.Prelude.{◌≡◌, ◌≤◌, ◌-◌, ◌^◌, ℕ, List, Option, OnOk, OnErr, min};
ghost use Rattle.chan_io.specs.Faults.{Rises};
ghost use Rattle.chan_io.specs.Draws.{Draws};

use crate::failed::Failed;

/// What random bytes are drawn from.
pub trait Entropy {
    /// The draws to come, where it tells.
    ghost draws: { Self → Option (List (List ℕ)) };

    /// How many of its draws failed.
    ghost fault_count: { Self → ℕ };

    /// Draws 16 bytes.
    fn draw(&mut self) -> Result<[u8; 16], Failed>
        ensures draws { Draws result (draws self.old) (draws self.new) }
        ensures steady { OnOk result (fault_count self.new ≡ fault_count self.old) }
        ensures failed { OnErr result (Rises (fault_count self.old) (fault_count self.new)) }
        ensures counted { fault_count self.old ≤ fault_count self.new };

    /// How many of its draws failed, or 2^64 - 1 where there were more.
    fn faults(&self) -> u64
        ensures { result ≡ min (fault_count self.now) (2 ^ 64 - 1) };
}
