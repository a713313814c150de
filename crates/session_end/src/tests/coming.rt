//! What comes over a link to the end of a plugin.

use chan_io::Got;
use chan_values::{Bytes, Item, NoMemory, Side};
use channel_core::Outgoing;
use channel_core::wire::outgoing;
use resend_queue::Sent;
use std::alloc::Global;

/// `channel_closed`, by the layout of docs/PROTOCOL.md: what stands before the body. The digest is
/// that of Python's hashlib.
const CLOSING_HEAD: [u8; 120] = *b"\x00\x00\x00\x74channel_closed                  \
    \x00\x00\x00\x01\x00\x00\x00\x00\x00\x00\x00\x01\x00\x00\x00\x00\x00\x00\x00\x00\
    \x00\x00\x00\x00\x00\x00\x00\x00\x00\x00\x00\x00\x00\x00\x00\x09\x00\x00\x00\x00\x00\x00\x00\x00\
    \x15\x4d\x9b\x11\x51\xd2\x23\x40\x75\x7a\xe1\x6e\xee\xb7\xa4\x19\
    \xfd\xc8\x81\xc2\xcc\x36\x33\xdb\x4e\x11\xf3\x1f\xc6\x3e\x24\x80\
    \x00\x00\x00\x00\x00\x00\x00\xa8";

/// Its body, of 168 bytes.
const CLOSING_BODY: &str = "{\"CreatedDate\":\"1\",\"DestinationId\":\"\",\
    \"MessageId\":\"00000000-0000-0000-0000-000000000009\",\"MessageType\":\"channel_closed\",\
    \"Output\":\"\",\"SchemaVersion\":1,\"SessionId\":\"s-1\"}";

/// What a receive gives.
#[derive(Clone, Copy)]
pub(crate) enum Coming {
    /// The agent's stream message with this number, byte and whether it is the last.
    Message(u32, u8, bool),
    /// The same, with a payload that isn't the one of its digest.
    Damaged(u32, u8),
    /// A message of a plugin, which no plugin hears.
    Foreign(u32, u8),
    /// The relay's closing.
    Closing,
    /// A text.
    Text,
    /// The end of a connection.
    Gone,
}

/// This as a link gives it.
pub(crate) fn got_of(alloc: Global, coming: Coming) -> Result<Got, NoMemory> {
    match coming {
        Coming::Message(seq, byte, last) => binary(message(alloc, Side::Agent, seq, byte, last)?),
        Coming::Damaged(seq, byte) => {
            let mut bytes = message(alloc, Side::Agent, seq, byte, false)?;
            let _byte = bytes.pop();
            bytes.push(byte ^ 1)?;
            binary(bytes)
        }
        Coming::Foreign(seq, byte) => binary(message(alloc, Side::Plugin, seq, byte, false)?),
        Coming::Closing => {
            let mut bytes = Vec::from_slice(alloc, &CLOSING_HEAD)?;
            bytes.extend_from_slice(CLOSING_BODY.as_bytes())?;
            binary(bytes)
        }
        Coming::Text => Ok(Got::Text(Bytes::new(Vec::from_slice(alloc, b"{}")?))),
        Coming::Gone => Ok(Got::Gone),
    }
}

/// These bytes as a binary message.
fn binary(bytes: Vec<u8>) -> Result<Got, NoMemory> {
    Ok(Got::Binary(Bytes::new(bytes)))
}

/// The bytes of a stream message of one byte.
fn message(alloc: Global, side: Side, seq: u32, byte: u8, last: bool) -> Result<Vec<u8>, NoMemory> {
    let sent = Sent {
        seq: u64::from(seq),
        id: [7; 16],
        date: 1,
        item: Item {
            ptype: 1,
            payload: Bytes::new(vec![in alloc; byte]?),
        },
        last,
    };
    outgoing(alloc, side, &Outgoing::Stream(sent))
}
