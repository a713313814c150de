//! What becomes of a connection, by its first message.

use chan_values::{Bytes, Side};
use session_register::SessionName;

/// What becomes of a connection, by its first message.
#[derive(Debug, Drop)]
pub enum Admit {
    /// It is let in.
    Accepted {
        /// To this session.
        session: SessionName,
        /// As this end.
        role: Side,
        /// With this reply.
        reply: Bytes,
    },
    /// It is refused; with `true`, since its session has ended.
    Refused(bool),
    /// The register's store failed.
    Store,
    /// The draw failed.
    Entropy,
    /// There was no memory.
    NoMemory,
}
