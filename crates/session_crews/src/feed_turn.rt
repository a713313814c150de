//! What became of a turn of a feeder's worker.

use crate::feed_done::FeedDone;
use crate::feed_end::FeedEnd;

/// What became of a turn of a feeder's worker.
#[derive(Drop)]
pub enum Goes<W, F> {
    /// Another turn follows.
    On,
    /// It was the last.
    Ends(FeedEnd),
    /// It was the last, since a worker could not be started: what that was to have came back.
    Refused(FeedEnd, FeedDone<W, F>),
}
