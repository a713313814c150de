//! What messages are received from.

ghost use Rattle.std.specs.Prelude.{◌≡◌, ◌≤◌, ℕ, Option};
ghost use Rattle.chan_io.specs.Faults.{IfFailed, UnlessFailed, Rises};
ghost use Rattle.chan_io.specs.LinksIn.{Arrivals, Receives};

use crate::failed::IoFault;
use crate::got::Got;

/// The receiving half of a link, over all of its connections, one after another.
pub trait LinkIn {
    /// What it answered and what is to come, where it tells.
    ghost arrivals: { Self → Option Arrivals };

    /// How many of its calls failed, up to 2^64 - 1.
    ghost faults: { Self → ℕ };

    /// Waits for the next message. After Gone and after a failure the connection is over.
    fn receive(&mut self) -> Result<Got, IoFault>
        ensures receives { Receives result (arrivals self.old) (arrivals self.new) }
        ensures steady { UnlessFailed result (faults self.new ≡ faults self.old) }
        ensures failed { IfFailed result (Rises (faults self.old) (faults self.new)) }
        ensures counted { faults self.old ≤ faults self.new };
}
