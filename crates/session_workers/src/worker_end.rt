//! How a worker ends, and how it rests.

/// How long a worker rests that finds nothing to do, in milliseconds.
pub const REST_MILLIS: u64 = 5;

/// How a worker ended that meets no fault but want of memory.
#[derive(Clone, Copy, Debug, PartialEq, Eq)]
pub enum WorkerEnd {
    /// It found the end closed.
    Closed,
    /// It wanted memory, and closed the end.
    NoMemory,
}
