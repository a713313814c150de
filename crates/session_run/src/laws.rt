//! What holds in each history of a shelf.

ghost use Rattle.session_run.specs.Shelf.{FirstInFirstOut};

/// The parcels that were taken off a shelf are the first that were added, in order.
pub fn first_in_first_out()
    ensures { FirstInFirstOut }
{}
