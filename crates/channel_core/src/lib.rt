//! One end of the data channel: what it is told, what it answers, and what two ends do together.
//!
//! An end makes no input or output of its own. A history is the list of its calls with their
//! answers; `specs/` says which histories there may be, and `laws` what holds in all of them.
#![tactic(auto)]

mod answer;
mod call;
mod end;
pub mod laws;
mod message;
mod owed;
#[cfg(test)]
mod tests;
pub mod wire;

pub use answer::{Heard, Look, Pull, Put, Tick};
pub use call::{EndAnswer, EndCall};
pub use end::End;
pub use message::{Incoming, Outgoing};
