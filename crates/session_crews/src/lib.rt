//! The workers of a session's feeders, which start each other: each takes what its feeder gives,
//! puts in the pieces, starts a worker for a feeder that comes, and joins those that it started as it
//! ends.
#![tactic(auto)]

mod counting_feeder;
mod crew;
mod feed_done;
mod feed_end;
mod feed_start;
mod feed_step;
mod feed_turn;
mod feed_work;
mod feeders;
pub mod laws;
mod run_context;
#[cfg(test)]
mod tests;

pub use counting_feeder::CountingFeeder;
pub use crew::{Crew, absorb, gather, make_room};
pub use feed_done::{FeedDone, FromFeeder};
pub use feed_end::{FeedEnd, Refusals};
pub use feed_start::FeedStart;
pub use feed_step::Step;
pub use feed_turn::Goes;
pub use feed_work::start_in_crew;
pub use feeders::{Feeders, Place};
pub use run_context::RunContext;
