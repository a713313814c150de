//! The end of a child.

ghost use Rattle.std.specs.Prelude.{◌≡◌, ◌≤◌, ℕ, ℤ, List, Option, OnOk, OnErr};
ghost use Rattle.chan_io.specs.Faults.{Rises};
ghost use Rattle.chan_ports.specs.Waits.{Waits};

use chan_io::Failed;

/// The end of a child, which is waited for.
pub trait Waited {
    /// The statuses that it answered, in order, where it tells.
    ghost statuses: { Self → Option (List ℤ) };

    /// How many of its calls failed, up to 2^64 - 1.
    ghost faults: { Self → ℕ };

    /// Waits until the child has ended, and answers its status.
    fn wait(&mut self) -> Result<i32, Failed>
        ensures waits { Waits result (statuses self.old) (statuses self.new) }
        ensures steady { OnOk result (faults self.new ≡ faults self.old) }
        ensures failed { OnErr result (Rises (faults self.old) (faults self.new)) }
        ensures counted { faults self.old ≤ faults self.new };
}
