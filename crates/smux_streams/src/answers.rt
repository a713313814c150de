//! The answers of a `Mux`.

use smux_frames::FrameFault;
use smux_store::Events;

/// What became of bytes, or of the end, of a stream.
#[derive(Clone, Copy, Debug, PartialEq, Eq)]
pub enum Write {
    /// The frame goes out.
    Done,
    /// The stream does not live.
    Unknown,
    /// It was closed here.
    Closed,
    /// The outgoing bytes have no room for the frame.
    Full,
    /// There was no memory, and nothing changed.
    NoMemory,
}

/// What a piece of the link's bytes did.
#[derive(Debug, Drop)]
pub struct Fed {
    /// How many of the bytes were taken. The rest is fed again later.
    pub consumed: usize,
    /// What its frames did, in order.
    pub events: Events,
    /// The fault that comes next, or that came before. It stays.
    pub fault: Option<FrameFault>,
}
