//! The binary message of the data channel and the items that it carries.
#![tactic(auto)]

mod capture;
mod capture_fault;
mod capture_reader;
mod decoding;
mod encoding;
mod field;
pub mod laws;
mod message;
mod name;
mod refusal;

pub use capture::capture_piece;
pub use capture_fault::{CaptureCause, CaptureFault};
pub use capture_reader::{CaptureReader, Captured};
pub use chan_values::{Item, Items, MAX_PAYLOAD};
pub use decoding::decode;
pub use encoding::{encode, encode_parts};
pub use message::{Head, Message, Messages};
pub use name::{MAX_NAME, Name};
pub use refusal::Refusal;

#[cfg(test)]
mod capture_tests;
#[cfg(test)]
mod tests;
