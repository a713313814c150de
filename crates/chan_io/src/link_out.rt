//! What messages are sent to.

ghost use Rattle.std.specs.Prelude.{◌≡◌, ◌≤◌, ℕ, Option};
ghost use Rattle.chan_io.specs.Faults.{IfFailed, UnlessFailed, Rises};
ghost use Rattle.chan_io.specs.LinksOut.{Departures, Sends, Shuts};
ghost use Rattle.chan_io.specs.declared.got.Got.{Got};

use crate::failed::IoFault;

/// The sending half of a link, over all of its connections, one after another.
pub trait LinkOut {
    /// The messages that were sent and how often it was shut, where it tells.
    ghost departures: { Self → Option Departures };

    /// How many of its calls failed, up to 2^64 - 1.
    ghost faults: { Self → ℕ };

    /// Sends a binary message.
    fn send(&mut self, message: &[u8]) -> Result<(), IoFault>
        ensures sends { Sends (Got.Binary message.now) result
            (departures self.old) (departures self.new) }
        ensures steady { UnlessFailed result (faults self.new ≡ faults self.old) }
        ensures failed { IfFailed result (Rises (faults self.old) (faults self.new)) }
        ensures counted { faults self.old ≤ faults self.new };

    /// Sends a text message.
    fn send_text(&mut self, text: &[u8]) -> Result<(), IoFault>
        ensures sends { Sends (Got.Text text.now) result
            (departures self.old) (departures self.new) }
        ensures steady { UnlessFailed result (faults self.new ≡ faults self.old) }
        ensures failed { IfFailed result (Rises (faults self.old) (faults self.new)) }
        ensures counted { faults self.old ≤ faults self.new };

    /// Ends the link: no connection is made or used from then on, and a receive that waits ends.
    fn shut(&mut self)
        ensures shuts { Shuts (departures self.old) (departures self.new) }
        ensures steady { faults self.new ≡ faults self.old };
}
