//! The listing of a capture: one line for each of its messages.
#![tactic(auto)]

mod line;
mod listing;
mod stop;
#[cfg(test)]
mod tests;

pub use listing::show;
pub use stop::ShowStop;
