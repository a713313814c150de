//! What the calls of an end answer.

use crate::{Incoming, Outgoing};
use chan_values::{Item, Items};

/// The answer to a put, as the last or not: the number of a new stream message, or why the item was
/// not taken. It is handed back then.
#[derive(Debug, Drop)]
pub enum Put {
    /// The item got this sequence number.
    Seq(u64),
    /// The end is closed.
    Closed(Item),
    /// An item was put in as the last before.
    Past(Item),
    /// All 2^63 - 1 sequence numbers are used up.
    Spent(Item),
    /// The send window is full.
    Full(Item),
}

/// The answer to a message that is heard: what became of it.
#[derive(Debug, Drop)]
pub enum Heard {
    /// A stream message was taken, and these items are now in order; none if it came early.
    Released(Items),
    /// The same, and the last of these items is the last that the other end put in: all are released.
    Finished(Items),
    /// A stream message was taken before. It is acknowledged again, where there is room to owe it.
    Late,
    /// The number of a stream message is outside the receive window. It is not acknowledged.
    Beyond,
    /// A stream message is at odds with the end of its direction: the message with this number was
    /// taken, as the last one, below it, or above it where it says that it is the last itself. It is
    /// not acknowledged.
    PastEnd(u64),
    /// The message with this number is acknowledged now.
    Acked(u64),
    /// No message with this number waits for an acknowledgement.
    UnknownAck(u64),
    /// Stream messages are held back.
    Paused,
    /// Stream messages go out again.
    Started,
    /// The end is closed by the closing that it heard.
    Ended,
    /// The end was closed before. Nothing changed.
    AfterClose,
    /// There was no memory for the list of what a stream message would release. It was not taken, and
    /// is not owed; it is handed back.
    NoMemory(Incoming),
}

/// The answer to a tick: what the retransmission timer of the lowest unacknowledged message did.
#[derive(Clone, Copy, Debug, PartialEq, Eq)]
pub enum Tick {
    /// It did not expire, or there is no such message.
    Nothing,
    /// It expired for this number, which goes out again.
    Due(u64),
    /// It expired for this number once more than the limit. The end is closed.
    GaveUp(u64),
}

/// The answer to a pull: the next message to transmit.
#[derive(Debug, Drop)]
pub enum Pull {
    /// This message is to be sent now.
    Emit(Outgoing),
    /// There is nothing to send.
    Idle,
    /// There was no memory for a copy. Nothing changed.
    NoMemory,
}

/// The answer to a look: the numbers of an end. A look changes nothing.
#[derive(Clone, Copy, Debug, PartialEq, Eq)]
pub struct Look {
    /// The next sequence number to send (SND.NXT of RFC 9293, 3.3.1).
    pub next: u64,
    /// The lowest unacknowledged number (SND.UNA), or `next` where there is none.
    pub low: u64,
    /// The next sequence number to release (RCV.NXT).
    pub expected: u64,
    /// How many items may be put in: the room of the send window, 0 where the end is closed or
    /// finished.
    pub room: u64,
    /// Whether the end is closed.
    pub closed: bool,
    /// Whether an item was put in as the last.
    pub finished: bool,
}
