//! What comes of an item, and why one is refused.

use crate::agreed::Agreed;
use chan_values::Item;
use json_bodies::BodyFault;

/// What comes of an item that a side is given.
#[derive(Debug, Drop)]
pub enum Step {
    /// The client answers this item, its response, which is to be put in.
    Put(Item),
    /// The agent answers this item, the completion, which is to be put in. The session begins.
    Finish(Item, Agreed),
    /// The client took the completion. The session begins.
    Done(Agreed),
    /// The handshake was done before. The item belongs to the session.
    Pass(Item),
    /// This item is refused, or one before it was. Every later step answers the same.
    Refused(Why),
    /// There was no memory, and nothing changed. The item comes back.
    NoMemory(Item),
}

/// Why an item is refused.
#[derive(Clone, Copy, Debug, PartialEq, Eq)]
pub enum Why {
    /// Another PayloadType is awaited than this one.
    Order(u32),
    /// The payload is not the body that is awaited. It is `Range` of RequestedClientActions, too,
    /// where the response to a request would take more than 65,536 bytes. It is never `NoMemory`.
    Body(BodyFault),
    /// No session is agreed on: the request asks for none of the two types, or the response tells
    /// of none.
    NoSession,
    /// ActionStatus of the session in the response: 2 (Failed) or 3 (Unsupported).
    Failed(u8),
}
