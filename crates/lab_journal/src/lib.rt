//! The journal of a script's run: a record for each thing that can be seen of its two ends.
//!
//! `run_journal` follows a script in plain mode, as `lab_run` does, and writes the journal of what both
//! ends did in place of a report. `session_audit` judges such journals.
#![tactic(auto)]

pub mod laws;
mod record;
mod recorder;
mod relayed;
mod run;
#[cfg(test)]
mod tests;
mod writer;

pub use run::run_journal;
