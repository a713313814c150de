//! The members of the JSON bodies of the data channel: their names, how each kind is read and
//! written, and why bytes are no body.
#![tactic(auto)]

mod body_fault;
mod member;
pub mod reading;
mod sequence;
#[cfg(test)]
mod tests;
pub mod writing;

pub use body_fault::BodyFault;
pub use member::Member;
pub use sequence::{Sequence, Texts};
