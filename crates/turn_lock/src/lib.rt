//! A ticket lock round a value. Its calls are served in the order of their tickets. What a seat has
//! seen is a legal history of the value, and the seats that are joined have seen parts of one.
#![tactic(auto)]

mod lock;
mod rule;
mod seat;
mod step;
#[cfg(test)]
mod tests;
mod ticket;
mod value;
mod view;

pub use seat::{Receipt, Seat, TurnLock};
pub use value::Turn;
pub use view::{Entry, LastCall, Locked, Merge, Share, Stage, View};
