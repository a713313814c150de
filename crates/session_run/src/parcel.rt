//! What a session is given.

use chan_values::Item;

/// What waits for the session.
#[derive(Debug, Drop)]
pub enum Parcel {
    /// An item of the other end arrived, in order.
    Arrived(Item),
    /// All items of the other end have arrived: this stands behind the last of them.
    Finished,
    /// A feeder has given all that it gives.
    Over,
}
