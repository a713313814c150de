//! The receiving half of a link in memory, of which chosen calls fail.

ghost use Rattle.std.specs.Prelude.{◌≡◌, Some};
ghost use Rattle.chan_io.specs.LinksIn.{unheard};

use crate::failed::IoFault;
use crate::failing::Failing;
use crate::got::Got;
use crate::inbox::Inbox;
use crate::link_in::LinkIn;
use std::alloc::Global;
use std::marker::Model;

/// A link of known messages. The calls whose numbers are in the list fail; the first call is 0.
#[derive(Debug, Drop)]
pub struct FaultyLinkIn {
    inbox: Inbox,
    failing: Failing,
}

impl Model for FaultyLinkIn {
    ghost use Rattle.chan_io.specs.LinksIn.{MemoryLinkIn};

    ghost Value = { MemoryLinkIn };

    ghost view = { λ l. record { arrivals = l.inbox; faults = l.failing } };
}

impl FaultyLinkIn {
    /// A link to which these messages come. After them each receive is answered Gone.
    pub fn new(alloc: Global, coming: Vec<Got>, failing: Vec<u64>) -> FaultyLinkIn
        ensures { result ≡ record { arrivals = unheard coming.items; faults = 0 } }
    {
        FaultyLinkIn {
            inbox: Inbox::new(alloc, coming),
            failing: Failing::new(failing),
        }
    }
}

impl LinkIn for FaultyLinkIn {
    ghost arrivals = { λ l. Some l.arrivals };

    ghost faults = { λ l. l.faults };

    fn receive(&mut self) -> Result<Got, IoFault> {
        if self.failing.fails() {
            self.inbox.fail()?;
            self.failing.count();
            return Err(IoFault::Failed);
        }
        Ok(self.inbox.receive()?)
    }
}
