//! The relay's register: which sessions there are, and which tokens open them.
//!
//! A session has two chains of tokens, one for each end. Opening with the last token gives its
//! successor, with the one before it the last again, so that a reply that got lost does no harm.
#![tactic(auto)]

mod answer;
mod keeper;
pub mod laws;
mod map_keeper;
mod name;
mod opening;
mod register;
mod row;
mod sql_store;
mod sqlite_keeper;
mod stored;
mod token;
mod token_value;

pub use answer::{Closing, Created, Open};
pub use chan_io::IoFault;
pub use keeper::Keeper;
pub use map_keeper::MapKeeper;
pub use name::{MAX_NAME, SessionName};
pub use register::Register;
pub use row::{Chain, OldChain, OldRow, Row, upgrade};
pub use sqlite_keeper::SqliteKeeper;
pub use token::{TOKEN_DIGITS, Token};
pub use token_value::TokenValue;

#[cfg(test)]
mod tests;
