//! The running relay's desk: the register and the random bytes behind one lock, who is let in, and
//! what a connection's reading worker does at each message that comes.
#![tactic(auto)]

mod admission;
mod desk;
mod desk_call;
pub mod desk_seat;
mod heard;
mod inlet;
mod opening;
#[cfg(test)]
mod tests;

pub use admission::Admit;
pub use desk::{Began, Desk};
pub use desk_call::{DeskAnswer, DeskCall};
pub use heard::Heard;
pub use inlet::Inlet;
pub use opening::{MAX_OPENING, admit};
