//! The receiving half of a link in memory that never fails.

ghost use Rattle.std.specs.Prelude.{◌≡◌, Some};
ghost use Rattle.chan_io.specs.LinksIn.{unheard};

use crate::failed::IoFault;
use crate::got::Got;
use crate::inbox::Inbox;
use crate::link_in::LinkIn;
use std::alloc::Global;
use std::marker::Model;

/// A link of known messages. Its count of faults is 0 for good.
#[derive(Debug, Drop)]
pub struct SteadyLinkIn {
    inbox: Inbox,
}

impl Model for SteadyLinkIn {
    ghost use Rattle.chan_io.specs.LinksIn.{Arrivals};

    ghost Value = { Arrivals };

    ghost view = { λ l. l.inbox };
}

impl SteadyLinkIn {
    /// A link to which these messages come. After them each receive is answered Gone.
    pub fn new(alloc: Global, coming: Vec<Got>) -> SteadyLinkIn
        ensures { result ≡ unheard coming.items }
    {
        SteadyLinkIn {
            inbox: Inbox::new(alloc, coming),
        }
    }
}

impl LinkIn for SteadyLinkIn {
    ghost arrivals = { λ l. Some l };

    ghost faults = { λ _. 0 };

    fn receive(&mut self) -> Result<Got, IoFault> {
        Ok(self.inbox.receive()?)
    }
}
