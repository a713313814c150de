//! The auditor of a session's journal.
#![tactic(auto)]

mod act;
mod emitted;
mod judge;
pub mod laws;
mod marks;
mod play;
mod reading;
mod record;
mod replay;
mod seat;
mod step;
#[cfg(test)]
mod tests;
mod verdict;

pub use act::Act;
pub use judge::audit;
pub use verdict::{Audit, Totals, Why};
