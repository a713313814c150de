//! Ports in memory at which links come in, of which chosen calls fail.

ghost use Rattle.std.specs.Prelude.{◌≡◌, Some};
ghost use Rattle.chan_ports.specs.Ports.{unused};

use crate::failing::Failing;
use crate::link_peer::LinkPeer;
use crate::link_ports::LinkPorts;
use crate::messages::Messages;
use crate::port_log::PortLog;
use chan_io::{Failed, FaultyLinkIn, FaultyLinkOut, IoFault};
use std::alloc::Global;
use std::marker::Model;

/// Ports at which links of known peers come in, one an accept, and after the last one none. The calls whose
/// numbers are in the list fail; the first call is 0. A listen also fails where it has no memory.
#[derive(Debug, Drop)]
pub struct FaultyLinkPorts {
    alloc: Global,
    peers: Vec<LinkPeer>,
    log: PortLog<Messages>,
    failing: Failing,
}

impl Model for FaultyLinkPorts {
    ghost use Rattle.std.specs.Prelude.{List};
    ghost use Rattle.chan_io.specs.declared.got.Got.{Got};
    ghost use Rattle.chan_ports.specs.Ports.{MemoryPorts};

    ghost Value = { MemoryPorts (List Got) };

    ghost view = { λ p. record { usage = p.log; faults = p.failing } };
}

impl FaultyLinkPorts {
    /// Ports at which nothing was done yet.
    pub fn new(alloc: Global, peers: Vec<LinkPeer>, failing: Vec<u64>) -> FaultyLinkPorts
        ensures { result ≡ record { usage = unused; faults = 0 } }
    {
        FaultyLinkPorts {
            alloc,
            peers,
            log: PortLog::new(alloc),
            failing: Failing::new(failing),
        }
    }
}

impl LinkPorts for FaultyLinkPorts {
    type In = FaultyLinkIn;

    type Out = FaultyLinkOut;

    ghost usage = { λ p. Some p.usage };

    ghost faults = { λ p. p.faults };

    fn listen(&mut self, port: u16) -> Result<u16, Failed> {
        self.failing.call()?;
        match self.log.listen(port) {
            Ok(port) => Ok(port),
            Err(_) => Err(self.failing.fail()),
        }
    }

    fn accept(&mut self) -> Result<Option<(FaultyLinkIn, FaultyLinkOut)>, IoFault> {
        self.failing.call()?;
        if self.peers.is_empty() {
            self.log.idle();
            return Ok(None);
        }
        let told = Messages::copy_of(self.alloc, self.peers[0].sends.as_slice())?;
        self.log.connect(told)?;
        Ok(Some(self.peers.remove(0).ends(self.alloc)))
    }
}
