//! TCP ports in memory, of which chosen calls fail.

ghost use Rattle.std.specs.Prelude.{◌≡◌, Some};
ghost use Rattle.chan_ports.specs.Ports.{unused};

use crate::connection::Connection;
use crate::failing::Failing;
use crate::peer::Peer;
use crate::port_log::PortLog;
use crate::ports::Ports;
use chan_io::{Failed, FaultySink, FaultySource};
use std::alloc::Global;
use std::marker::Model;

/// Ports with known peers, one for each connection, accepted or made; after the last one none comes, and no
/// connect succeeds. The calls whose numbers are in the list fail; the first call is 0. A call also
/// fails where it has no memory.
#[derive(Debug, Drop)]
pub struct FaultyPorts {
    alloc: Global,
    peers: Vec<Peer>,
    log: PortLog<Connection>,
    failing: Failing,
}

impl Model for FaultyPorts {
    ghost use Rattle.chan_ports.specs.Ports.{MemoryPorts};
    ghost use Rattle.chan_ports.specs.declared.connection.Connection.{Connection};

    ghost Value = { MemoryPorts Connection };

    ghost view = { λ p. record { usage = p.log; faults = p.failing } };
}

impl FaultyPorts {
    /// Ports at which nothing was done yet.
    pub fn new(alloc: Global, peers: Vec<Peer>, failing: Vec<u64>) -> FaultyPorts
        ensures { result ≡ record { usage = unused; faults = 0 } }
    {
        FaultyPorts {
            alloc,
            peers,
            log: PortLog::new(alloc),
            failing: Failing::new(failing),
        }
    }

    /// The connections that were made.
    pub fn connections(&self) -> &[Connection]
        ensures { result.now ≡ self.now.usage.connections }
    {
        self.log.connections()
    }
}

impl Ports for FaultyPorts {
    type In = FaultySource;

    type Out = FaultySink;

    ghost usage = { λ p. Some p.usage };

    ghost faults = { λ p. p.faults };

    fn listen(&mut self, port: u16) -> Result<u16, Failed> {
        self.failing.call()?;
        match self.log.listen(port) {
            Ok(port) => Ok(port),
            Err(_) => Err(self.failing.fail()),
        }
    }

    fn accept(&mut self) -> Result<Option<(FaultySource, FaultySink)>, Failed> {
        self.failing.call()?;
        if self.peers.is_empty() {
            self.log.idle();
            return Ok(None);
        }
        if self.log.connect(Connection::Accepted).is_err() {
            return Err(self.failing.fail());
        }
        Ok(Some(self.peers.remove(0).ends(self.alloc)))
    }

    fn connect(&mut self, port: u16) -> Result<(FaultySource, FaultySink), Failed> {
        self.failing.call()?;
        if self.peers.is_empty() || self.log.connect(Connection::Connected(port)).is_err() {
            return Err(self.failing.fail());
        }
        Ok(self.peers.remove(0).ends(self.alloc))
    }
}
