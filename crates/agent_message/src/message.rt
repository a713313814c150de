//! The binary message of the data channel.

ghost use Rattle.std.specs.Prelude.{◌≡◌, []};
ghost use Rattle.agent_message.specs.Heads.{message_with};

use crate::name::Name;
use chan_values::Bytes;
use std::alloc::Global;
use std::marker::Model;

/// One message of the data channel (AWS Session Manager binary message; big-endian).
#[derive(Debug, Drop)]
pub struct Message {
    /// MessageType: 1 to 32 ASCII letters, digits or underscores.
    pub name: Name,
    /// SchemaVersion: written as 1, not looked at when read.
    pub schema: u32,
    /// CreatedDate: milliseconds since 1970-01-01 UTC.
    pub date: u64,
    /// SequenceNumber: the place among the sender's stream messages, from 0.
    pub seq: i64,
    /// Flags: bit 0 is SYN, bit 1 is FIN.
    pub flags: u64,
    /// MessageId, in the order of its text. The wire has bytes 8 to 15 first.
    pub id: [u8; 16],
    /// PayloadType: what a stream message carries, as 1 (Output) or 12 (ExitCode).
    pub ptype: u32,
    /// Payload: at most 65,536 bytes. Their SHA-256 (FIPS 180-4) goes before them.
    pub payload: Bytes,
}

/// A message without its payload, each field as there.
#[derive(Clone, Copy, Debug)]
pub struct Head {
    /// MessageType.
    pub name: Name,
    /// SchemaVersion.
    pub schema: u32,
    /// CreatedDate.
    pub date: u64,
    /// SequenceNumber.
    pub seq: i64,
    /// Flags.
    pub flags: u64,
    /// MessageId.
    pub id: [u8; 16],
    /// PayloadType.
    pub ptype: u32,
}

impl Message {
    /// The message without its payload.
    pub fn head(&self) -> Head
        ensures { message_with result self.now.payload ≡ self.now }
    {
        Head {
            name: self.name,
            schema: self.schema,
            date: self.date,
            seq: self.seq,
            flags: self.flags,
            id: self.id,
            ptype: self.ptype,
        }
    }
}

/// A list of messages, as contracts see it. It is made from a vector and gives it back.
#[derive(Debug, Drop)]
pub struct Messages {
    messages: Vec<Message>,
}

impl Model for Messages {
    ghost use Rattle.std.specs.Prelude.{List};
    ghost use Rattle.agent_message.specs.declared.message.Message.{Message};

    ghost Value = { List Message };

    ghost view = { λ m. m.messages.items };
}

impl Messages {
    /// The messages of a vector.
    pub fn new(messages: Vec<Message>) -> Messages
        ensures { result ≡ messages.items }
    {
        Messages { messages }
    }

    /// No messages.
    pub fn none(alloc: Global) -> Messages
        ensures { result ≡ [] }
    {
        Messages {
            messages: Vec::new(alloc),
        }
    }

    /// The vector of the messages.
    pub fn into_vec(self) -> Vec<Message>
        ensures { result.items ≡ self }
    {
        self.messages
    }

    /// The messages in place.
    pub fn as_slice(&self) -> &[Message]
        ensures { result.now ≡ self.now }
    {
        self.messages.as_slice()
    }
}
