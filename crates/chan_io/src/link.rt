//! A link as its three objects.

/// What connects one end to the relay. The three share the current connection.
#[derive(Debug, Drop)]
pub struct Link<D, N, U> {
    /// It makes the connections.
    pub dialer: D,
    /// It receives from the current one.
    pub input: N,
    /// It sends to the current one.
    pub output: U,
}
