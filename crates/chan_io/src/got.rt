//! What a link gives.

ghost use Rattle.std.specs.Prelude.{◌≡◌, IfOk};

use chan_values::{Bytes, NoMemory};
use std::alloc::Global;

/// What one receive gives: a message of the other end (RFC 6455, 5.6), or the end of a connection.
#[derive(Debug, Drop)]
pub enum Got {
    /// A binary message.
    Binary(Bytes),
    /// A text message, as its bytes.
    Text(Bytes),
    /// The connection was closed.
    Gone,
}

impl Got {
    /// The same a second time.
    pub fn copy(&self, alloc: Global) -> Result<Got, NoMemory>
        ensures { IfOk result (λ copied. copied ≡ self.now) }
    {
        match self {
            Got::Binary(message) => Ok(Got::Binary(message.copy(alloc)?)),
            Got::Text(text) => Ok(Got::Text(text.copy(alloc)?)),
            Got::Gone => Ok(Got::Gone),
        }
    }
}
