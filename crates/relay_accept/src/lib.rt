//! The connections of a running relay: the worker of each, which lets it in and reads what comes, and
//! the one that accepts them.
#![tactic(auto)]

mod accept;
mod accepting;
mod conn_done;
mod conn_start;
mod conn_work;
mod drain;
mod let_in;
mod relay_context;
mod relay_seats;
mod run_end;
mod serve;

pub use accept::{Accepted, MAX_LIVING, accept_all};
pub use conn_done::{ConnDone, FromConn};
pub use conn_start::{ConnStart, Flag};
pub use relay_context::RelayContext;
pub use relay_seats::{RelaySeats, SessionSeat};
pub use run_end::RunEnd;
