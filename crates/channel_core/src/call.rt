//! The calls of an end and their answers as values, of which histories are made.

use crate::{Heard, Incoming, Look, Pull, Put, Tick};
use chan_values::Item;

/// A call of an end with its arguments. Moments are milliseconds.
#[derive(Debug, Drop)]
pub enum EndCall {
    /// The user puts in an item, which gets this MessageId.
    Put { item: Item, id: [u8; 16], now: u64 },
    /// The user puts in an item as the last.
    PutLast { item: Item, id: [u8; 16], now: u64 },
    /// A message comes in.
    Heard { now: u64, incoming: Incoming },
    /// The timers are looked at.
    Tick { now: u64 },
    /// The next message to transmit is asked for.
    Pull { now: u64 },
    /// The connection was lost.
    Lost,
    /// A new connection was made.
    Opened { now: u64 },
    /// The end is closed from this side.
    Close,
    /// The numbers of the end are asked for.
    Look,
}

/// The answer to a call of an end.
#[derive(Debug, Drop)]
pub enum EndAnswer {
    /// To a put, as the last or not.
    Put(Put),
    /// To a message that came in.
    Heard(Heard),
    /// To a look at the timers.
    Tick(Tick),
    /// To a pull.
    Pull(Pull),
    /// To a look.
    Look(Look),
    /// To `lost`, `opened` and `close`, which have no answer of their own.
    Done,
}
