//! The actions at an event, by the room of its session or the peer of its connection.

ghost use Rattle.std.specs.Prelude.{◌≡◌, IfOk, OnOk, [], ◌∷◌, ◌++◌};
ghost use Rattle.relay_core.specs.Rooms.{at, dismissal, dismissals, forwards, greeting, greetings, pauses};

use crate::action::{Action, Actions};
use crate::message::Stamp;
use crate::room::Room;
use chan_values::{Bytes, NoMemory, Side};
use session_register::SessionName;
use std::alloc::Global;

/// The longest message that is forwarded, in bytes: a header of 120 and a payload of 65,536.
pub const MAX_FORWARDED: usize = 65_656;

/// What is done at an opening.
pub(crate) fn greet(
    stamp: &Stamp,
    room: &Room,
    session: &SessionName,
    conn: u64,
    role: Side,
    reply: Bytes,
) -> Result<Actions, NoMemory>
    ensures { IfOk result (λ told. told
        ≡ greetings room.now session.now conn role reply stamp.now.id stamp.now.moment) }
{
    let mut actions = Vec::new(stamp.alloc);
    actions.push(Action::Text(conn, reply))?;
    if room.ended {
        actions.push(Action::Send(conn, stamp.closing(session)?))?;
        actions.push(Action::Drop(conn))?;
        return Ok(Actions::new(actions));
    }
    if let Some(former) = room.holder(role) {
        actions.push(Action::Drop(former))?;
    }
    actions.push(greeting(stamp, conn, room.holder(role.other()))?)?;
    Ok(Actions::new(actions))
}

fn greeting(stamp: &Stamp, conn: u64, peer: Option<u64>) -> Result<Action, NoMemory>
    ensures { IfOk result (λ told. told ∷ []
        ≡ greeting conn peer stamp.now.id stamp.now.moment) }
{
    Ok(match peer {
        Some(peer) => Action::Send(peer, stamp.start()?),
        None => Action::Send(conn, stamp.pause()?),
    })
}

/// What is done at a binary message whose sender has this peer. The bytes are moved, not copied.
pub(crate) fn forward(alloc: Global, peer: Option<u64>, bytes: Bytes) -> Result<Actions, NoMemory>
    ensures { IfOk result (λ told. told ≡ forwards peer bytes) }
{
    let mut actions = Vec::new(alloc);
    if bytes.len() <= MAX_FORWARDED {
        if let Some(peer) = peer {
            actions.push(Action::Send(peer, bytes))?;
        }
    }
    Ok(Actions::new(actions))
}

/// What is done at the loss of a connection that had this peer.
pub(crate) fn pause_peer(stamp: &Stamp, peer: Option<u64>) -> Result<Actions, NoMemory>
    ensures { IfOk result (λ told. told ≡ pauses peer stamp.now.id stamp.now.moment) }
{
    let mut actions = Vec::new(stamp.alloc);
    if let Some(peer) = peer {
        actions.push(Action::Send(peer, stamp.pause()?))?;
    }
    Ok(Actions::new(actions))
}

/// What is done at the end of a session.
pub(crate) fn dismiss(
    stamp: &Stamp,
    room: &Room,
    session: &SessionName,
) -> Result<Actions, NoMemory>
    ensures { IfOk result (λ told. told
        ≡ dismissals room.now session.now stamp.now.id stamp.now.moment) }
{
    let mut actions = Vec::new(stamp.alloc);
    push_dismissal(stamp, &mut actions, session, room.plugin)?;
    push_dismissal(stamp, &mut actions, session, room.agent)?;
    Ok(Actions::new(actions))
}

fn push_dismissal(
    stamp: &Stamp,
    actions: &mut Vec<Action>,
    session: &SessionName,
    conn: Option<u64>,
) -> Result<(), NoMemory>
    ensures { OnOk result (actions.new.items ≡ actions.old.items
        ++ at conn (dismissal session.now stamp.now.id stamp.now.moment)) }
{
    if let Some(conn) = conn {
        actions.push(Action::Send(conn, stamp.closing(session)?))?;
        actions.push(Action::Drop(conn))?;
    }
    Ok(())
}
