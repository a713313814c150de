//! What holds of each worker of a feeder.

ghost use Rattle.session_crews.specs.FeedLaws.{EndsHaveCauses, FailuresAreCounted, PiecesArePut};

/// What the worker of a feeder put in is the first of what its feeder gave, in order, and all of it
/// unless it was stopped.
pub fn pieces_are_put()
    ensures { PiecesArePut }
{}

/// Where a worker ended since its feeder failed, calls of that feeder failed.
pub fn failures_are_counted()
    ensures { FailuresAreCounted }
{}

/// A worker put `Over` on the shelf exactly where its feeder gave all and memory was not wanted, and
/// noted a fault exactly where it failed; one that was stopped had an answer of the end that says so.
pub fn ends_have_causes()
    ensures { EndsHaveCauses }
{}
