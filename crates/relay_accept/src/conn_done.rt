//! What the worker of a connection ends with.

use crate::relay_seats::RelaySeats;
use crate::run_end::RunEnd;
use chan_io::{Entropy, Spawner};
use relay_desk::Desk;
use session_register::Keeper;
use std::snapshot::Snapshot;
use std::thread::Promise;
use turn_lock::Turn;

/// What the worker of a connection ends with.
#[derive(Drop)]
pub struct ConnDone<D: Turn, W> {
    /// Its seats, with those of the worker that wrote to the connection.
    pub seats: RelaySeats<D>,
    /// What started that worker.
    pub spawner: W,
    /// How it ended.
    pub end: RunEnd,
}

/// That the worker of a connection ends as it may with these seats.
#[derive(Drop)]
pub struct FromConn<D: Turn> {
    /// Its seats.
    pub seats: Snapshot<RelaySeats<D>>,
}

impl<K: Keeper + Drop, E: Entropy + Drop, W: Spawner> Promise<ConnDone<Desk<K, E>, W>>
    for FromConn<Desk<K, E>> {
    ghost use Rattle.relay_accept.specs.Conns.{ConnEnds};

    ghost kept_by = { λ p done. ConnEnds W.faults p.seats.value done };
}
