//! The workers of a connection of a running relay, behind its opening: one writes to it, one
//! reads from it.
#![tactic(auto)]

mod drops;
mod mark;
mod reading;
mod send_end;
mod send_job;
#[cfg(test)]
mod tests;

pub use drops::Drops;
pub use mark::Mark;
pub use reading::read_all;
pub use send_end::SendEnd;
pub use send_job::{REST_MILLIS, SendDone, SendJob};
