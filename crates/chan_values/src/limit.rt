//! The limits of the protocol. The definitions have them in specs/Limits.antt, as numbers of their own.

/// The greatest payload of a message, in bytes.
pub const MAX_PAYLOAD: usize = 65_536;

/// The longest window of an end, in messages.
pub const MAX_WINDOW: u64 = 10_000;

/// The greatest SequenceNumber of a stream message: 2^63 - 2.
pub const MAX_SEQ: u64 = (1 << 63) - 2;
