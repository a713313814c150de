//! The sending half of a link in memory, of which chosen calls fail.

ghost use Rattle.std.specs.Prelude.{◌≡◌, Some};
ghost use Rattle.chan_io.specs.LinksOut.{unsent};

use crate::failed::IoFault;
use crate::failing::Failing;
use crate::got::Got;
use crate::link_out::LinkOut;
use crate::outbox::Outbox;
use std::alloc::Global;
use std::marker::Model;

/// A link that keeps what was sent. The sends whose numbers are in the list fail; the first is 0.
#[derive(Debug, Drop)]
pub struct FaultyLinkOut {
    outbox: Outbox,
    failing: Failing,
}

impl Model for FaultyLinkOut {
    ghost use Rattle.chan_io.specs.LinksOut.{MemoryLinkOut};

    ghost Value = { MemoryLinkOut };

    ghost view = { λ l. record { departures = l.outbox; faults = l.failing } };
}

impl FaultyLinkOut {
    /// A link on which nothing was sent yet.
    pub fn new(alloc: Global, failing: Vec<u64>) -> FaultyLinkOut
        ensures { result ≡ record { departures = unsent; faults = 0 } }
    {
        FaultyLinkOut {
            outbox: Outbox::new(alloc),
            failing: Failing::new(failing),
        }
    }

    /// What was sent.
    pub fn sent(&self) -> &[Got]
        ensures { result.now ≡ self.now.departures.sent }
    {
        self.outbox.sent()
    }

    /// How often it was shut.
    pub fn shuts(&self) -> u64
        ensures { result ≡ self.now.departures.shuts }
    {
        self.outbox.shuts()
    }
}

impl LinkOut for FaultyLinkOut {
    ghost departures = { λ l. Some l.departures };

    ghost faults = { λ l. l.faults };

    fn send(&mut self, message: &[u8]) -> Result<(), IoFault> {
        if self.failing.fails() {
            self.failing.count();
            return Err(IoFault::Failed);
        }
        Ok(self.outbox.send(message)?)
    }

    fn send_text(&mut self, text: &[u8]) -> Result<(), IoFault> {
        if self.failing.fails() {
            self.failing.count();
            return Err(IoFault::Failed);
        }
        Ok(self.outbox.send_text(text)?)
    }

    fn shut(&mut self) {
        self.outbox.shut();
    }
}
