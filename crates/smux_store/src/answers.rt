//! The answers that both versions of smux give.

use chan_values::Bytes;

/// What became of the wish to open a stream.
#[derive(Clone, Copy, Debug, PartialEq, Eq)]
pub enum Open {
    /// The stream has this id. Its SYN goes out.
    Sid(u32),
    /// The last id was given.
    IdsSpent,
    /// As many streams live as may.
    TooMany,
    /// The outgoing bytes have no room for the SYN.
    Full,
    /// There was no memory, and nothing changed.
    NoMemory,
}

/// What a stream gave.
#[derive(Debug, Drop)]
pub enum Taken {
    /// The next bytes, at least one.
    Bytes(Bytes),
    /// The other end wrote no more, and all of it was taken.
    End,
    /// Nothing waits, and more may come.
    Nothing,
    /// The stream does not live.
    Unknown,
    /// There was no memory, and nothing changed.
    NoMemory,
}
