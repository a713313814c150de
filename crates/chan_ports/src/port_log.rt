//! What was done at ports in memory.

ghost use Rattle.std.specs.Prelude.{◌≡◌, ◌<◌, IfOk, OnErr, OnOk};
ghost use Rattle.chan_ports.specs.Ports.{IsPortFor, connected, idle_once_more, listening, unused};

use chan_io::NoMemory;
use std::alloc::Global;
use std::marker::Model;

/// What a fake answers where any free port is asked for: the first dynamic port (RFC 6335, 6).
pub const FREE_PORT: u16 = 49_152;

/// What was done at ports in memory; of each connection, this is told.
#[derive(Debug, Drop)]
pub(crate) struct PortLog<C> {
    listened: Vec<u16>,
    idle: u64,
    connections: Vec<C>,
}

impl<C> Model for PortLog<C> {
    ghost use Rattle.chan_ports.specs.Ports.{Usage};

    ghost Value = { Usage C };

    ghost view = { λ l. record {
      listened = l.listened.items;
      idle = l.idle;
      connections = l.connections.items;
    } };
}

impl<C: Drop> PortLog<C> {
    /// Nothing was done yet.
    pub(crate) fn new(alloc: Global) -> PortLog<C>
        ensures { result ≡ unused }
    {
        PortLog {
            listened: Vec::new(alloc),
            idle: 0,
            connections: Vec::new(alloc),
        }
    }

    /// The connections that were made.
    pub(crate) fn connections(&self) -> &[C]
        ensures { result.now ≡ self.now.connections }
    {
        self.connections.as_slice()
    }

    /// Notes a port, and answers it.
    pub(crate) fn listen(&mut self, port: u16) -> Result<u16, NoMemory>
        ensures answer { IfOk result (IsPortFor port) }
        ensures noted { IfOk result (λ p. self.new ≡ listening p self.old) }
        ensures same { OnErr result (self.new ≡ self.old) }
    {
        let port = port_for(port);
        self.listened.push(port)?;
        Ok(port)
    }

    /// Notes that no connection came.
    pub(crate) fn idle(&mut self)
        ensures { self.new ≡ idle_once_more self.old }
    {
        self.idle = self.idle.saturating_add(1);
    }

    /// Notes a connection.
    pub(crate) fn connect(&mut self, connection: C) -> Result<(), NoMemory>
        ensures noted { OnOk result (self.new ≡ connected connection self.old) }
        ensures same { OnErr result (self.new ≡ self.old) }
    {
        self.connections.push(connection)?;
        Ok(())
    }
}

/// The port that is asked for, or the free one where 0 is.
pub(crate) fn port_for(asked: u16) -> u16
    ensures { IsPortFor asked result }
{
    if asked == 0 { FREE_PORT } else { asked }
}
