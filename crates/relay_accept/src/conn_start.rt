//! The worker of a connection that is to be started.

ghost use Rattle.std.specs.Prelude.{◌≡◌, IfSome};
ghost use Rattle.std.proofs.Props.{props};
ghost use Rattle.chan_io.specs.LinksOut.{unsent};
ghost use Rattle.turn_lock.specs.Seats.{IsSeatOf};
ghost use Rattle.relay_accept.specs.Seats.{locks_in, locks_of};
ghost use Rattle.relay_accept.specs.declared.run_end.RunEnd.TheVariants as RunEnd;

use crate::conn_done::ConnDone;
use crate::relay_context::RelayContext;
use crate::relay_seats::RelaySeats;
use crate::run_end::RunEnd;
use chan_io::LinkOut;
use std::alloc::Global;
use std::sync::Arc;
use std::sync::atomic::AtomicBool;
use turn_lock::Turn;

/// What the worker of a connection sets as its last act, so that it is joined.
pub type Flag = Arc<AtomicBool, Global>;

/// All that the worker of a connection needs. It goes to the worker's thread.
#[derive(Drop)]
pub struct ConnStart<'s, 'e, R, C, D: Turn, N, U: LinkOut + Drop, W> {
    /// What it shares with the others.
    pub ctx: RelayContext<'s, 'e, R, C, D>,
    /// What it sets as its last act.
    pub flag: Flag,
    /// The number of its connection.
    pub conn: u64,
    /// The connection's input.
    pub input: N,
    /// The connection's output.
    pub output: U,
    /// Its seats.
    pub seats: RelaySeats<D>,
    /// What starts the worker that writes to the connection.
    pub spawner: W,
    ghost unsent: { IfSome (U.departures output) (λ d. d ≡ unsent) } by { Prim.hlevel props },
    ghost desk_seat: { IsSeatOf ctx.desk.now seats.desk },
    ghost switch_seats: { locks_of seats.switches.items ≡ locks_in ctx.switches.now },
}

impl<'s, 'e, R, C, D: Turn, N: Drop, U: LinkOut + Drop, W> ConnStart<'s, 'e, R, C, D, N, U, W> {
    /// What the worker ends with where it is not started. The connection ends.
    pub(crate) fn not_started(self) -> ConnDone<D, W>
        ensures seats { result.seats ≡ self.entry.seats }
        ensures spawner { result.spawner ≡ self.entry.spawner }
        ensures end { result.end ≡ RunEnd.Stopped }
    {
        let ConnStart {
            ctx: _,
            flag: _,
            conn: _,
            input: _,
            mut output,
            seats,
            spawner,
        } = self;
        output.shut();
        ConnDone {
            seats,
            spawner,
            end: RunEnd::Stopped,
        }
    }
}
