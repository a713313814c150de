//! The receiving half of one end: which stream messages are taken, and in what order they are
//! released.
#![tactic(auto)]

mod release;
mod take;
#[cfg(test)]
mod tests;
mod window;

pub use take::Take;
pub use window::Window;
