//! One run of one end of the data channel with its session: its workers are started in threads over
//! one end and one shelf, and joined again. The histories of both come back as receipts, and say
//! who made which call.
#![tactic(auto)]

mod crew;
mod delivering;
mod ends;
mod leftover;
mod outcome;
mod plan;
mod reading;
mod resending;
mod run;
mod seats;
mod settled;
mod setup;
mod starts;
#[cfg(test)]
mod tests;
mod threads;
mod writing;

pub use outcome::Outcome;
pub use run::{EndRun, run_end};
pub use setup::Setup;
