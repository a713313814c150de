//! The sending half of one end: what was put in and is not acknowledged, and when it is sent again.
//!
//! It holds no clock. Moments come in as arguments, in milliseconds.
#![tactic(auto)]

mod answer;
mod estimate;
mod queue;
mod slot;

pub use answer::{Kept, Mark, Out, Sent};
pub use estimate::{Estimate, MAX_SAMPLE};
pub use queue::Queue;
