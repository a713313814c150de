//! The relay as a machine: what it sends at each event of its connections.
//!
//! It knows the current connection of each role of each session, and forwards whole messages between
//! the two. It sends pauses, starts and closings of its own. It reads no message.
#![tactic(auto)]

mod action;
mod answer;
mod event;
pub mod laws;
mod message;
mod place;
mod relay;
mod room;
#[cfg(test)]
mod tests;

pub use action::{Action, Actions};
pub use answer::MAX_FORWARDED;
pub use event::Event;
pub use relay::Relay;
