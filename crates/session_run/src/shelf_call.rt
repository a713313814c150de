//! The calls of a shelf and their answers.

use crate::parcel::Parcel;

/// A call of the shelf.
#[derive(Debug, Drop)]
pub enum ShelfCall {
    /// A parcel is added, behind the others.
    Add(Parcel),
    /// The first parcel is taken.
    First,
    /// It is asked what waits, and what was noted.
    Count,
    /// It is noted that a connection was made.
    Opening,
    /// It is noted that the session is to finish; with `true`, that a worker met a fault.
    Finish(bool),
}

/// The answer to a call of the shelf.
#[derive(Debug, Drop)]
pub enum ShelfAnswer {
    /// The parcel was added.
    Added,
    /// There was no memory for the parcel. Nothing changed.
    NoMemory,
    /// The parcel that was the first, and left the shelf; None where nothing waited.
    First(Option<Parcel>),
    /// To a count.
    Count(Count),
    /// To `Opening` and `Finish`, which have no answer of their own.
    Done,
}

/// What waits on a shelf, and what was noted there.
#[derive(Clone, Copy, Debug, PartialEq, Eq)]
pub struct Count {
    /// How many parcels wait.
    pub parcels: u64,
    /// How many connections were noted, up to 2^64 - 1.
    pub openings: u64,
    /// Whether it was noted that the session is to finish.
    pub finish: bool,
    /// Whether it was noted that a worker met a fault.
    pub fault: bool,
}
