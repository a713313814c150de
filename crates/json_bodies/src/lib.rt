//! The JSON bodies of the data channel: acknowledgements, openings and the replies to them,
//! terminal sizes and closings.
//!
//! A body is one JSON object. It is written compactly with its keys in byte order. It is read with
//! its members in any order, unknown ones passed over, and of equal keys the last counts.
#![tactic(auto)]

mod ack;
mod action;
mod channel_closed;
mod handshake_complete;
mod handshake_request;
mod handshake_response;
pub mod laws;
mod opened;
mod opening;
mod processed;
mod properties;
mod size;
#[cfg(test)]
mod tests;

pub use ack::Ack;
pub use action::{Action, Actions};
pub use channel_closed::ChannelClosed;
pub use handshake_complete::HandshakeComplete;
pub use handshake_request::HandshakeRequest;
pub use handshake_response::HandshakeResponse;
pub use json_members::{BodyFault, Member, Sequence, Texts};
pub use opened::Opened;
pub use opening::Opening;
pub use processed::{Processed, ProcessedActions};
pub use properties::Properties;
pub use size::Size;
