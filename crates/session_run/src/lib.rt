//! What the threads of one run of a session share: the end of the data channel and the session's
//! inbox, each behind a lock. What a seat of such a lock has seen is a legal history.
#![tactic(auto)]

pub mod end_seat;
mod gate;
mod held;
pub mod laws;
mod parcel;
#[cfg(test)]
mod seat_tests;
mod shelf;
mod shelf_call;
pub mod shelf_seat;
#[cfg(test)]
mod tests;

pub use channel_core::{EndAnswer, EndCall};
pub use gate::{Gate, OpenGate};
pub use held::Held;
pub use parcel::Parcel;
pub use shelf::Shelf;
pub use shelf_call::{Count, ShelfAnswer, ShelfCall};
