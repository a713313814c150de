//! A script's run: its steps on two ends of the channel, and the report of them.
//!
//! `run` follows a script in plain mode. What it is made of is public for the other modes: the calls
//! that verbs make at an end (`calls`, `damage`), the ends (`Endpoint`, `Pair`), the printing of a
//! report (`Printer`), and the definitions of a step in `specs/Steps`.
#![tactic(auto)]

pub mod calls;
mod context;
pub mod damage;
mod endpoint;
mod exchange;
pub mod laws;
mod outcome;
mod pair;
mod plain;
mod printer;
mod stop;

pub use context::Context;
pub use endpoint::Endpoint;
pub use exchange::settle;
pub use pair::Pair;
pub use plain::run;
pub use printer::Printer;
pub use stop::Stop;
