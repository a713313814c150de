//! A script's run on two ends that reach each other through a relay alone.
//!
//! The relay is the machine of `relay_core`, with one session. What it sends to a connection of an end
//! waits in the end's inbox until a line lets the end hear it: never, late, again or out of order.
#![tactic(auto)]

mod hub;
mod inboxes;
pub mod laws;
mod relayed;
mod script;
mod step;
#[cfg(test)]
mod tests;
mod verbs;

pub use script::run;
