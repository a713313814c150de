//! The verdict on a journal, told as a line or as a fault.
//!
//! `session_audit` judges a journal; here a journal that is accepted gets one line with its totals, and
//! every other one the place and the reason at which it is refused.
#![tactic(auto)]

mod fault;
mod judging;
mod line;
mod stop;
#[cfg(test)]
mod tests;

pub use fault::JournalFault;
pub use judging::judge;
pub use stop::AuditStop;
