//! The rooms of the sessions.

ghost use Rattle.std.specs.Prelude.{◌≡◌, OnOk, IsSome, List, ℕ, if◌then◌else◌};
ghost use Rattle.std.specs.Ordering.{nat_cmp};
ghost use Rattle.std.specs.BTreeMap.{get};
ghost use Rattle.std.specs.Cmp.Lexicographic.{slice_cmp};
ghost use Rattle.relay_core.specs.Rooms.{across, holder, is_conn};
ghost use Rattle.relay_core.specs.Kept.{empty_room, room_in};
ghost use Rattle.relay_core.specs.Changes.{SetsRoom, cleared_room, ended_room, opened_room, unless_conn};

use chan_values::{NoMemory, Side};
use session_register::SessionName;
use std::collections::BTreeMap;

/// What is kept of a session: whether it has ended, and the current connections of its two roles.
#[derive(Clone, Copy, Debug)]
pub struct Room {
    pub(crate) ended: bool,
    pub(crate) plugin: Option<u64>,
    pub(crate) agent: Option<u64>,
}

impl Room {
    /// A session at which nothing has happened.
    pub(crate) fn empty() -> Room
        ensures { result ≡ empty_room }
    {
        Room {
            ended: false,
            plugin: None,
            agent: None,
        }
    }

    /// A session that has ended.
    pub(crate) fn ended() -> Room
        ensures { result ≡ ended_room }
    {
        Room {
            ended: true,
            plugin: None,
            agent: None,
        }
    }

    /// The current connection of a role.
    pub(crate) fn holder(&self, role: Side) -> Option<u64>
        ensures { result ≡ holder role self.now }
    {
        match role {
            Side::Plugin => self.plugin,
            Side::Agent => self.agent,
        }
    }

    /// The current connection of the other role, where this one is the current one of its role.
    pub(crate) fn across(&self, conn: u64, role: Side) -> Option<u64>
        ensures { result ≡ across conn role self.now }
    {
        if is_conn(conn, self.holder(role)) {
            self.holder(role.other())
        } else {
            None
        }
    }

    /// The room after an opening.
    pub(crate) fn opened(self, role: Side, conn: u64) -> Room
        ensures { result ≡ opened_room role conn self }
    {
        if self.ended {
            return self;
        }
        match role {
            Side::Plugin => Room {
                plugin: Some(conn),
                ..self
            },
            Side::Agent => Room {
                agent: Some(conn),
                ..self
            },
        }
    }

    /// The room after the loss of a connection.
    pub(crate) fn cleared(self, conn: u64) -> Room
        ensures { result ≡ cleared_room conn self }
    {
        Room {
            plugin: unless_conn(conn, self.plugin),
            agent: unless_conn(conn, self.agent),
            ..self
        }
    }
}

fn is_conn(conn: u64, holder: Option<u64>) -> bool
    ensures { result ≡ is_conn conn holder }
{
    match holder {
        Some(other) => other == conn,
        None => false,
    }
}

fn unless_conn(conn: u64, holder: Option<u64>) -> Option<u64>
    ensures { result ≡ unless_conn conn holder }
{
    if is_conn(conn, holder) { None } else { holder }
}

/// The room of a session, an empty one where none is kept.
pub(crate) fn room_for(rooms: &BTreeMap<SessionName, Room>, session: &SessionName) -> Room
    ensures { result ≡ room_in rooms.now.entries session.now }
{
    match rooms.get(session) {
        Some(room) => *room,
        None => Room::empty(),
    }
}

/// Sees to it that a room is kept of the session, so that a change of it takes no memory.
pub(crate) fn keep_room(
    rooms: &mut BTreeMap<SessionName, Room>,
    session: &SessionName,
) -> Result<(), NoMemory>
    ensures same { (s : List ℕ) → room_in rooms.new.entries s ≡ room_in rooms.old.entries s }
    ensures kept { OnOk result (IsSome (get (slice_cmp nat_cmp) rooms.new session.now)) }
{
    let room = room_for(rooms, session);
    rooms.insert(*session, room)?;
    Ok(())
}

/// Changes the room that is kept of a session.
pub(crate) fn change_room(
    rooms: &mut BTreeMap<SessionName, Room>,
    session: &SessionName,
    room: Room,
)
    requires { IsSome (get (slice_cmp nat_cmp) rooms.old session.now) }
    ensures { SetsRoom session.now room rooms.old.entries rooms.new.entries }
{
    if let Some(kept) = rooms.get_mut(session) {
        *kept = room;
    }
}

/// Takes a lost connection out of the room of its session.
pub(crate) fn clear_room(rooms: &mut BTreeMap<SessionName, Room>, session: &SessionName, conn: u64)
    ensures { SetsRoom session.now (cleared_room conn (room_in rooms.old.entries session.now))
        rooms.old.entries rooms.new.entries }
{
    if let Some(room) = rooms.get_mut(session) {
        *room = room.cleared(conn);
    }
}
