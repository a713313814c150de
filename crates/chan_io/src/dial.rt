//! A dial that was made.

use chan_values::Bytes;

/// A dial: what was sent first, and what came back.
#[derive(Debug, Drop)]
pub struct Dial {
    /// The opening that was sent.
    pub opening: Bytes,
    /// The reply; none where the dial failed.
    pub reply: Option<Bytes>,
}
