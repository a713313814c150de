//! The relay.
//!
//! A driver numbers its connections, hands in what happens at them, one event after another, and
//! does the actions of each answer in order.
//!
//! ```text
//!               Opened                  Gone, EndSession, or Opened of another in this role
//!   let in  ------------>  current  ----------------------------------------------------->  former
//! ```
//!
//! Messages go from a current connection to the current one of the other role of its session. What
//! a former connection sends is passed over.

ghost use Rattle.std.specs.Prelude.{◌≡◌, List, IfOk, OnOk, OnErr, []};
ghost use Rattle.relay_core.specs.Rooms.{dismissals, greetings, pauses};
ghost use Rattle.relay_core.specs.Forwarding.{current};
ghost use Rattle.relay_core.specs.Kept.{Follows, Stands, peer_in, room_in};
ghost use Rattle.relay_core.specs.Changes.{Ends, IsSame, Loses, Opens};
ghost use Rattle.relay_core.specs.declared.event.Event.{Event};

use crate::action::Actions;
use crate::answer::{dismiss, forward, greet, pause_peer};
use crate::event::Event;
use crate::message::Stamp;
use crate::place::Place;
use crate::room::{Room, change_room, clear_room, keep_room, room_for};
use chan_values::{Bytes, NoMemory, Side};
use session_register::SessionName;
use std::alloc::Global;
use std::collections::BTreeMap;
use std::marker::Model;

/// The current connections of each session. A step costs a logarithm in the number of sessions that
/// are or were, and of connections that are.
#[derive(Drop)]
pub struct Relay {
    alloc: Global,
    // What is kept of each session that was opened or ended.
    rooms: BTreeMap<SessionName, Room>,
    // Where each connection was let in, until it is lost.
    places: BTreeMap<u64, Place>,
}

impl Model for Relay {
    ghost use Rattle.relay_core.specs.Kept.{Kept};

    ghost Value = { Kept };

    ghost view = { λ r. record { rooms = r.rooms.entries; places = r.places.entries } };
}

impl Relay {
    /// A relay at which nothing has happened.
    pub fn new(alloc: Global) -> Relay
        ensures { Stands result [] }
    {
        Relay {
            alloc,
            rooms: BTreeMap::new(alloc),
            places: BTreeMap::new(alloc),
        }
    }

    /// Answers what is done at an event. Its own messages have this id, and `now` as their date, in
    /// milliseconds since 1970-01-01 UTC, at least 1. On want of memory it is as if nothing had come.
    pub fn step(&mut self, event: Event, id: [u8; 16], now: u64) -> Result<Actions, NoMemory>
        ensures { Follows self.old event id now result self.new }
    {
        let stamp = Stamp {
            alloc: self.alloc,
            id,
            moment: now,
        };
        match event {
            Event::Opened {
                conn,
                session,
                role,
                reply,
            } => self.open(&stamp, conn, session, role, reply),
            Event::Binary { conn, bytes } => forward(self.alloc, self.peer(conn), bytes),
            Event::Gone { conn } => self.lose(&stamp, conn),
            Event::EndSession { session } => self.end(&stamp, session),
        }
    }

    /// The current connection of a role in a session.
    pub fn current(&self, session: &SessionName, role: Side) -> Option<u64>
        ensures { (es : List Event) → Stands self.now es → result ≡ current es session.now role }
    {
        self.room(session).holder(role)
    }

    fn room(&self, session: &SessionName) -> Room
        ensures { result ≡ room_in self.now.rooms session.now }
    {
        room_for(&self.rooms, session)
    }

    // The peer of a current connection.
    fn peer(&self, conn: u64) -> Option<u64>
        ensures { result ≡ peer_in self.now conn }
    {
        match self.places.get(&conn) {
            Some(place) => room_for(&self.rooms, &place.session).across(conn, place.role),
            None => None,
        }
    }

    fn open(
        &mut self,
        stamp: &Stamp,
        conn: u64,
        session: SessionName,
        role: Side,
        reply: Bytes,
    ) -> Result<Actions, NoMemory>
        ensures told { IfOk result (λ told. told ≡ greetings (room_in self.old.rooms session)
            session conn role reply stamp.now.id stamp.now.moment) }
        ensures ok { OnOk result (Opens conn session role self.old self.new) }
        ensures err { OnErr result (IsSame self.old self.new) }
    {
        let room = room_for(&self.rooms, &session);
        let actions = greet(stamp, &room, &session, conn, role, reply)?;
        // Memory comes first: the last change takes none.
        keep_room(&mut self.rooms, &session)?;
        self.places.insert(conn, Place { session, role })?;
        change_room(&mut self.rooms, &session, room.opened(role, conn));
        Ok(actions)
    }

    fn lose(&mut self, stamp: &Stamp, conn: u64) -> Result<Actions, NoMemory>
        ensures told { IfOk result (λ told.
            told ≡ pauses (peer_in self.old conn) stamp.now.id stamp.now.moment) }
        ensures ok { OnOk result (Loses conn self.old self.new) }
        ensures err { OnErr result (IsSame self.old self.new) }
    {
        let actions = pause_peer(stamp, self.peer(conn))?;
        if let Some(place) = self.places.remove(&conn) {
            clear_room(&mut self.rooms, &place.session, conn);
        }
        Ok(actions)
    }

    fn end(&mut self, stamp: &Stamp, session: SessionName) -> Result<Actions, NoMemory>
        ensures told { IfOk result (λ told. told ≡ dismissals (room_in self.old.rooms session)
            session stamp.now.id stamp.now.moment) }
        ensures ok { OnOk result (Ends session self.old self.new) }
        ensures err { OnErr result (IsSame self.old self.new) }
    {
        let room = room_for(&self.rooms, &session);
        let actions = dismiss(stamp, &room, &session)?;
        self.rooms.insert(session, Room::ended())?;
        Ok(actions)
    }
}
