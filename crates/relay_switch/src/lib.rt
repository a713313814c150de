//! The running relay's share of one session: the machine of `relay_core` with a line of what goes out
//! for each connection, as the value of a lock, and what a connection's writing worker does in a turn.
#![tactic(auto)]

mod line;
mod lines;
mod outlet;
mod refusal;
mod switch;
mod switch_call;
pub mod switch_seat;
#[cfg(test)]
mod tests;

pub use line::MAX_WAITING;
pub use outlet::{Outlet, Turned};
pub use refusal::refuse;
pub use switch::Switch;
pub use switch_call::{SwitchAnswer, SwitchCall};
