//! A script's run with streams: two ends of the channel, and a link of streams over them whose bytes
//! are the items of type 1.
//!
//! `run` follows a script. The plugin's side of the link is a client, the agent's a server.
#![tactic(auto)]

mod carrier;
mod exchange;
pub mod laws;
mod left;
mod link;
mod outcome;
mod push;
mod script;
mod streams;
#[cfg(test)]
mod tests;

pub use carrier::Carrier;
pub use left::Left;
pub use link::Link;
pub use script::run;
pub use streams::Streams;
