//! Who is at the other end of a link in memory.

ghost use Rattle.std.specs.Prelude.{◌≡◌};
ghost use Rattle.chan_io.specs.LinksIn.{unheard};
ghost use Rattle.chan_io.specs.LinksOut.{unsent};

use chan_io::{FaultyLinkIn, FaultyLinkOut, Got};
use std::alloc::Global;

/// What a link in memory gives, and which of its calls fail, by their numbers from 0.
#[derive(Debug, Drop)]
pub struct LinkPeer {
    /// The messages that come. After them each receive is answered Gone.
    pub sends: Vec<Got>,
    /// The receives that fail.
    pub failing_receives: Vec<u64>,
    /// The sends that fail.
    pub failing_sends: Vec<u64>,
}

impl LinkPeer {
    /// The two halves of its link.
    pub(crate) fn ends(self, alloc: Global) -> (FaultyLinkIn, FaultyLinkOut)
        ensures input { result.0 ≡ record { arrivals = unheard self.sends.items; faults = 0 } }
        ensures output { result.1 ≡ record { departures = unsent; faults = 0 } }
    {
        let input = FaultyLinkIn::new(alloc, self.sends, self.failing_receives);
        let output = FaultyLinkOut::new(alloc, self.failing_sends);
        (input, output)
    }
}
