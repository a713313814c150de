//! The sending half of a link in memory that never fails.

ghost use Rattle.std.specs.Prelude.{◌≡◌, Some};
ghost use Rattle.chan_io.specs.LinksOut.{unsent};

use crate::failed::IoFault;
use crate::got::Got;
use crate::link_out::LinkOut;
use crate::outbox::Outbox;
use std::alloc::Global;
use std::marker::Model;

/// A link that keeps what was sent. Its count of faults is 0 for good.
#[derive(Debug, Drop)]
pub struct SteadyLinkOut {
    outbox: Outbox,
}

impl Model for SteadyLinkOut {
    ghost use Rattle.chan_io.specs.LinksOut.{Departures};

    ghost Value = { Departures };

    ghost view = { λ l. l.outbox };
}

impl SteadyLinkOut {
    /// A link on which nothing was sent yet.
    pub fn new(alloc: Global) -> SteadyLinkOut
        ensures { result ≡ unsent }
    {
        SteadyLinkOut {
            outbox: Outbox::new(alloc),
        }
    }

    /// What was sent.
    pub fn sent(&self) -> &[Got]
        ensures { result.now ≡ self.now.sent }
    {
        self.outbox.sent()
    }

    /// How often it was shut.
    pub fn shuts(&self) -> u64
        ensures { result ≡ self.now.shuts }
    {
        self.outbox.shuts()
    }
}

impl LinkOut for SteadyLinkOut {
    ghost departures = { λ l. Some l };

    ghost faults = { λ _. 0 };

    fn send(&mut self, message: &[u8]) -> Result<(), IoFault> {
        Ok(self.outbox.send(message)?)
    }

    fn send_text(&mut self, text: &[u8]) -> Result<(), IoFault> {
        Ok(self.outbox.send_text(text)?)
    }

    fn shut(&mut self) {
        self.outbox.shut();
    }
}
