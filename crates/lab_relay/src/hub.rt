//! The connections that the ends made.

ghost use Rattle.std.specs.Prelude.{◌≡◌, ◌++◌, ◌∷◌, [], List, IfOk, OnOk};
ghost use Rattle.std.specs.Option.{option_map};
ghost use Rattle.relay_core.specs.declared.event.Event.{Event as RelayEvent};
ghost use Rattle.relay_core.specs.declared.event.Event.TheVariants as events;
ghost use Rattle.relay_core.specs.Forwarding.{place_of};
ghost use Rattle.lab_relay.specs.Held.{IsHub};
ghost use Rattle.lab_relay.specs.Scene.{lab, last_conn, next_conn};

use chan_values::{NoMemory, Side};
use std::alloc::Global;

/// Who made each connection. They are numbered from 0.
#[derive(Drop)]
pub struct Hub {
    // The end that made the connection, by its number.
    pub ends: Vec<Side>,
    // The last connection of each end.
    pub plugin: Option<u64>,
    pub agent: Option<u64>,
}

impl Hub {
    /// No connection was made.
    pub(crate) fn new(alloc: Global) -> Hub
        ensures { IsHub [] result }
    {
        Hub {
            ends: Vec::new(alloc),
            plugin: None,
            agent: None,
        }
    }

    /// An end makes a connection. Answers its number.
    pub(crate) fn dial(&mut self, side: Side) -> Result<u64, NoMemory>
        ensures number { (es : List RelayEvent) → IsHub es self.old
            → IfOk result (λ conn. conn ≡ next_conn es) }
        ensures made { (es : List RelayEvent) → IsHub es self.old
            → let opened = events.Opened (next_conn es) lab side [] in
            OnOk result (IsHub (es ++ opened ∷ []) self.new) }
    {
        let conn = self.ends.len() as u64;
        self.ends.push(side)?;
        match side {
            Side::Plugin => self.plugin = Some(conn),
            Side::Agent => self.agent = Some(conn),
        }
        Ok(conn)
    }

    /// The last connection of an end.
    pub(crate) fn last(&self, side: Side) -> Option<u64>
        ensures { (es : List RelayEvent) → IsHub es self.now → result ≡ last_conn es side }
    {
        match side {
            Side::Plugin => self.plugin,
            Side::Agent => self.agent,
        }
    }

    /// The end that made a connection.
    pub(crate) fn end_of(&self, conn: u64) -> Option<Side>
        ensures { (es : List RelayEvent) → IsHub es self.now
            → result ≡ option_map (λ p. p.role) (place_of es conn) }
    {
        self.ends.get(conn as usize).copied()
    }
}
