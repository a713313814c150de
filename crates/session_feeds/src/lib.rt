//! What a session is to a run of one end: the user's end of the channel, and what brings its input;
//! and how a worker puts in the items that these give.
#![tactic(auto)]

mod feeder;
mod ids;
pub mod laws;
mod putting;
mod session;
#[cfg(test)]
mod tests;

pub use feeder::{Came, Fed, Feeder};
pub use ids::Ids;
pub use putting::{REST_MILLIS, put_all, put_item};
pub use session::{Session, SessionFault, Verdict};
