//! The program `lab` as one function: words, input, script, run, status.
#![tactic(auto)]

mod input;
mod program;
mod script;
mod status;
#[cfg(test)]
mod tests;
mod words;

pub use input::MAX_INPUT;
pub use program::lab;
pub use status::Status;
pub use words::{Mode, Task};
