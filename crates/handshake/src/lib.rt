//! The handshake that begins a session, both sides of it. The agent asks for a session, the client
//! (the plugin) answers what becomes of each requested action, and the agent says that it is done.
//!
//! ```text
//!       agent                                       client
//!         |   request (PayloadType 5)                 |
//!         | ----------------------------------------> |
//!         |                            response (6)   |
//!         | <---------------------------------------- |
//!         |   completion (7)                          |
//!         | ----------------------------------------> |
//! ```
//!
//! Each side is given the items that come, one after another, and answers a step. All moments are
//! milliseconds.
#![tactic(auto)]

mod agent;
mod agreed;
mod client;
mod code;
pub mod laws;
mod response;
mod step;
mod stop;
#[cfg(test)]
mod tests;

pub use agent::AgentSide;
pub use agreed::{Agreed, SessionType};
pub use client::ClientSide;
pub use json_bodies::{BodyFault, Properties};
pub use step::{Step, Why};
