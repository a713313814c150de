//! Ports in memory at which links come in, and that never fail.

ghost use Rattle.std.specs.Prelude.{None};

use crate::link_ports::LinkPorts;
use crate::port_log::port_for;
use chan_io::{Failed, Got, IoFault, SteadyLinkIn, SteadyLinkOut};
use std::alloc::Global;

/// Ports at which links come in to which these messages come, one an accept, and after the last one none.
/// They tell nothing, and their count of faults is 0 for good.
#[derive(Debug, Drop)]
pub struct SteadyLinkPorts {
    alloc: Global,
    peers: Vec<Vec<Got>>,
}

impl SteadyLinkPorts {
    /// Ports at which these links come in.
    pub fn new(alloc: Global, peers: Vec<Vec<Got>>) -> SteadyLinkPorts {
        SteadyLinkPorts { alloc, peers }
    }
}

impl LinkPorts for SteadyLinkPorts {
    type In = SteadyLinkIn;

    type Out = SteadyLinkOut;

    ghost usage = { λ _. None };

    ghost faults = { λ _. 0 };

    fn listen(&mut self, port: u16) -> Result<u16, Failed> {
        Ok(port_for(port))
    }

    fn accept(&mut self) -> Result<Option<(SteadyLinkIn, SteadyLinkOut)>, IoFault> {
        if self.peers.is_empty() {
            return Ok(None);
        }
        let sends = self.peers.remove(0);
        let input = SteadyLinkIn::new(self.alloc, sends);
        Ok(Some((input, SteadyLinkOut::new(self.alloc))))
    }
}
