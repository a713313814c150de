//! TCP ports in memory that never fail.

ghost use Rattle.std.specs.Prelude.{None};

use crate::port_log::port_for;
use crate::ports::Ports;
use chan_io::{DiscardSink, Failed, SteadySource};
use std::alloc::Global;

/// Ports at which peers come that send these bytes, one an accept, and after the last one none; what is
/// connected to sends nothing. They tell nothing, and their count of faults is 0 for good.
#[derive(Debug, Drop)]
pub struct SteadyPorts {
    alloc: Global,
    peers: Vec<Vec<u8>>,
}

impl SteadyPorts {
    /// Ports at which these peers come.
    pub fn new(alloc: Global, peers: Vec<Vec<u8>>) -> SteadyPorts {
        SteadyPorts { alloc, peers }
    }
}

impl Ports for SteadyPorts {
    type In = SteadySource;

    type Out = DiscardSink;

    ghost usage = { λ _. None };

    ghost faults = { λ _. 0 };

    fn listen(&mut self, port: u16) -> Result<u16, Failed> {
        Ok(port_for(port))
    }

    fn accept(&mut self) -> Result<Option<(SteadySource, DiscardSink)>, Failed> {
        if self.peers.is_empty() {
            return Ok(None);
        }
        let sends = self.peers.remove(0);
        Ok(Some((SteadySource::new(sends), DiscardSink)))
    }

    fn connect(&mut self, _port: u16) -> Result<(SteadySource, DiscardSink), Failed> {
        Ok((SteadySource::new(Vec::new(self.alloc)), DiscardSink))
    }
}
