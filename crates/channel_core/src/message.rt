//! The messages of an end: what it hears, and what it emits.

use chan_values::{Item, Text};
use resend_queue::Sent;

/// A message as an end hears it. The other end sends the first two, the relay the others.
#[derive(Debug, Drop)]
pub enum Incoming {
    /// A stream message (`input_stream_data`, `output_stream_data`).
    Stream {
        /// SequenceNumber: below 2^63.
        seq: u64,
        /// MessageId.
        id: [u8; 16],
        /// The payload and its type.
        item: Item,
        /// Whether it is the last of its direction.
        last: bool,
    },
    /// An acknowledgement (`acknowledge`).
    Ack {
        /// AcknowledgedMessageSequenceNumber: below 2^63.
        seq: u64,
    },
    /// Hold back stream messages (`pause_publication`).
    Pause,
    /// Send stream messages again (`start_publication`).
    Start,
    /// The session has ended (`channel_closed`).
    Closing {
        /// Output: the text for the user.
        output: Text,
    },
}

/// A message as an end emits it.
#[derive(Debug, Drop)]
pub enum Outgoing {
    /// A stream message, for the first time or again.
    Stream(Sent),
    /// The acknowledgement of a stream message that was heard.
    Ack {
        /// AcknowledgedMessageSequenceNumber: the number of the message that was heard.
        seq: u64,
        /// MessageId, of the message that was heard.
        id: [u8; 16],
        /// CreatedDate: the moment of the pull in milliseconds, at least 1.
        date: u64,
    },
}
