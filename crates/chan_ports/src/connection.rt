//! A connection that was made.

/// A connection at ports that tell theirs.
#[derive(Clone, Copy, Debug, PartialEq, Eq)]
pub enum Connection {
    /// It came and was accepted.
    Accepted,
    /// It was made to this port.
    Connected(u16),
}
