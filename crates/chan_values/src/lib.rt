//! The values that the channel's crates share: the two sides, bytes, texts, items, want of memory, and
//! the limits of the protocol. Nothing here reads, writes or waits.
#![tactic(auto)]

mod bytes;
mod item;
mod limit;
mod no_memory;
mod side;
mod text;

pub use bytes::Bytes;
pub use item::{Item, Items};
pub use limit::{MAX_PAYLOAD, MAX_SEQ, MAX_WINDOW};
pub use no_memory::NoMemory;
pub use side::Side;
pub use text::{Text, Word};
