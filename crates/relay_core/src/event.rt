//! What happens at the relay.

use chan_values::{Bytes, Side};
use session_register::SessionName;

/// One event. Connections are told apart by their numbers.
#[derive(Debug, Drop)]
pub enum Event {
    /// A connection was let in as a role of a session.
    Opened {
        /// The connection: a new one, which no earlier event let in.
        conn: u64,
        /// The session.
        session: SessionName,
        /// The role.
        role: Side,
        /// The text that is sent to it first.
        reply: Bytes,
    },
    /// A binary message came.
    Binary {
        /// The connection that it came from.
        conn: u64,
        /// The message.
        bytes: Bytes,
    },
    /// A connection was lost.
    Gone {
        /// The connection.
        conn: u64,
    },
    /// A session has ended.
    EndSession {
        /// The session.
        session: SessionName,
    },
}
