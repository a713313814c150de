//! A script that makes itself, run on two ends with a window of 10,000 messages.
//!
//! A linear congruential generator decides what each round of the script does. Of the run the counts
//! of what was put in and released are told in one line. An end keeps the latest of its emissions
//! alone, so that the memory of a run does not grow with its length.
#![tactic(auto)]

mod counts;
mod ends;
mod generated;
mod latest;
pub mod laws;
mod round;
mod run;
#[cfg(test)]
mod tests;

pub use counts::Counts;
pub use generated::{MAX_ROUNDS, run_generated};
pub use round::Round;
