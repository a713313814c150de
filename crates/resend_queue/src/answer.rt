//! What the calls of a queue answer.

use chan_values::Item;

/// What became of an item that was put in: the answer of `Queue::put` and `Queue::put_last`.
#[derive(Debug, Drop)]
pub enum Kept {
    /// It is kept under this sequence number.
    Seq(u64),
    /// An item was put in as the last. The item comes back.
    Past(Item),
    /// There is no number left. The item comes back.
    Spent(Item),
    /// The window is full. The item comes back.
    Full(Item),
}

/// What became of the retransmission timer of the lowest unacknowledged message: the answer of
/// `Queue::mark_due`.
#[derive(Clone, Copy, Debug, PartialEq, Eq)]
pub enum Mark {
    /// It hasn't expired, or there is no such message.
    Nothing,
    /// It expired: the message is sent again.
    Due(u64),
    /// It expired, and the message was sent again as often as it may be.
    GaveUp(u64),
}

/// A stream message as it goes out.
#[derive(Debug, Drop)]
pub struct Sent {
    /// SequenceNumber: the place among the sender's stream messages, from 0; below 2^63.
    pub seq: u64,
    /// MessageId.
    pub id: [u8; 16],
    /// CreatedDate: the moment of the put in milliseconds, at least 1.
    pub date: u64,
    /// The payload and its type.
    pub item: Item,
    /// Whether it is the last of its direction.
    pub last: bool,
}

/// What goes out next: the answer of `Queue::next_out`.
#[derive(Debug, Drop)]
pub enum Out {
    /// This message.
    Stream(Sent),
    /// Nothing.
    Idle,
    /// There was no memory for the copy, and nothing changed.
    NoMemory,
}
