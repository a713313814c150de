//! What holds of all that a deliverer does.

ghost use Rattle.session_delivery.specs.DeliverLaws.{ClosedIsSeen, ParcelsAreServed, VerdictsArePut};

/// The parcels that a deliverer took off the shelf are those that it gave the session, in order.
pub fn parcels_are_served()
    ensures { ParcelsAreServed }
{}

/// What a deliverer put in is the first of what the verdicts asked for, in order, and all of it
/// unless a put was stopped.
pub fn verdicts_are_put()
    ensures { VerdictsArePut }
{}

/// A deliverer ends at a closed end only where it found no parcel after the end was seen closed.
pub fn closed_is_seen()
    ensures { ClosedIsSeen }
{}
