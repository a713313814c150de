//! What became of a line of the script.

use chan_values::{Bytes, Items};

/// What became of a line, as its line of the report says.
#[derive(Debug, Drop)]
pub enum Outcome {
    /// The item was put, with this sequence number.
    Seq(u64),
    /// The window is full.
    Full,
    /// The end is closed.
    Closed,
    /// The last item of the direction was put before.
    Past,
    /// No sequence number is left.
    Spent,
    /// The end emitted a message: the emission's number, and the whole encoding.
    Emit { number: u64, encoding: Bytes },
    /// The end has nothing to emit.
    Idle,
    /// These items are in order now.
    Released(Items),
    /// These items are in order now, and they end with the last one of the direction.
    Finished(Items),
    /// The message was taken before.
    Late,
    /// The message is outside the receive window.
    Beyond,
    /// The message does not fit the end of its direction, by the message of this number.
    PastEnd(u64),
    /// The message of this number is acknowledged.
    Acked(u64),
    /// An acknowledgement of a number that was not sent or is acknowledged.
    UnknownAck(u64),
    /// The end heard a pause.
    Paused,
    /// The end heard a start.
    Started,
    /// The end heard a closing; or every byte of a stream was taken, and the other end closed it.
    Ended,
    /// The end was closed before.
    AfterClose,
    /// The emission, or the payload byte, is not there.
    Absent,
    /// The message was refused, with the number of the refusal.
    Refused(u64),
    /// The digest of the damaged message is right; no end was called.
    Passed,
    /// No timer expired; or a stream has no bytes to take.
    Nothing,
    /// The message of this number is due again.
    Due(u64),
    /// The end gave up the message of this number, and is closed.
    GaveUp(u64),
    /// There is nothing to say.
    Quiet,
    /// What the streams of an end answered, or what became of one of them.
    Stream(StreamOutcome),
    /// What the relay answered.
    Relay(RelayOutcome),
}

/// What the streams of an end answered, or what became of one of them. Where no more is taken, a stream
/// or an end is closed, or a stream has nothing, the line says it by the words `full`, `closed`, `past`,
/// `ended` and `nothing` of an `Outcome`.
#[derive(Debug, Drop)]
pub enum StreamOutcome {
    /// A stream was opened here, with this id.
    Sid(u32),
    /// As many streams live as may live at once.
    TooMany,
    /// No stream id is left.
    IdsSpent,
    /// The bytes go out; or the stream is closed.
    Done,
    /// No such stream lives.
    Unknown,
    /// The streams give out nothing.
    Empty,
    /// These bytes were taken.
    Taken(Bytes),
    /// The other end opened this stream.
    Opened(u32),
    /// Bytes of this stream came.
    Ready(u32),
    /// The other end closed this stream.
    Ended(u32),
    /// This stream of the other end was refused.
    Refused(u32),
}

/// What the relay answered.
#[derive(Debug, Drop)]
pub enum RelayOutcome {
    /// The number of the new connection.
    Connection(u64),
    /// The emission came to the relay on the end's current connection.
    Sent,
    /// The emission came on a connection that is no longer the end's, or never was.
    Dropped,
}
