//! What makes the connections of a link.

ghost use Rattle.std.specs.Prelude.{◌≡◌, ◌≤◌, ℕ, Option, List};
ghost use Rattle.chan_io.specs.Faults.{IfFailed, UnlessFailed, Rises};
ghost use Rattle.chan_io.specs.Dials.{Dials};
ghost use Rattle.chan_io.specs.declared.dial.Dial.{Dial};

use crate::failed::IoFault;
use chan_values::{Bytes, Text};

/// What connects a link to the relay.
pub trait Dialer {
    /// The dials that were made, in order, where it tells.
    ghost dials: { Self → Option (List Dial) };

    /// How many of its calls failed, up to 2^64 - 1.
    ghost faults: { Self → ℕ };

    /// Connects, sends the opening as a text message, and answers the text that comes back.
    fn dial(&mut self, address: &Text, opening: &[u8]) -> Result<Bytes, IoFault>
        ensures dials { Dials opening.now result (dials self.old) (dials self.new) }
        ensures steady { UnlessFailed result (faults self.new ≡ faults self.old) }
        ensures failed { IfFailed result (Rises (faults self.old) (faults self.new)) }
        ensures counted { faults self.old ≤ faults self.new };
}
