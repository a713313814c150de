//! The link reader as a job.

ghost use Rattle.std.specs.Prelude.{◌≡◌, None};
ghost use Rattle.turn_lock.specs.Seats.{IsSeatOf};
ghost use Rattle.session_run.specs.Adds.{AddsCalls};
ghost use Rattle.session_workers.specs.ReaderRuns.{reader_closing};

use crate::link_reader::LinkReader;
use crate::read_state::ReadEnd;
use chan_io::{Clock, Dialer, Job, LinkIn};
use session_run::end_seat::close;
use session_run::{Gate, Held, Shelf};
use std::alloc::Global;
use std::sync::Wait;
use turn_lock::{Seat, TurnLock};

/// The number of the link reader at the gate.
pub const LINK_READER: u32 = 0;

/// The link reader with all that it needs.
#[derive(Drop)]
pub struct ReaderJob<'s, R, C, G, D, N> {
    /// The runtime.
    pub rt: &'s R,
    /// The memory for what it reads.
    pub alloc: Global,
    /// The lock over the end.
    pub ends: &'s TurnLock<Held>,
    /// The lock over the shelf.
    pub shelf: &'s TurnLock<Shelf>,
    /// The clock.
    pub clock: &'s C,
    /// What it passes at the beginning of each turn.
    pub gate: &'s G,
    /// The reader, before its first turn.
    pub reader: LinkReader<D, N>,
    ghost new: { reader.state.over ≡ None },
    ghost its_end: { IsSeatOf ends.now reader.end },
    ghost its_shelf: { IsSeatOf shelf.now reader.shelf },
}

/// What the link reader ends with.
#[derive(Drop)]
pub struct ReaderDone<D, N> {
    /// Its seats, its link, and how it ended.
    pub reader: LinkReader<D, N>,
}

impl<
    's,
    R: Wait + Sync,
    C: Clock + Sync,
    G: Gate,
    D: Dialer + Send + Drop,
    N: LinkIn + Send + Drop,
> Job for ReaderJob<'s, R, C, G, D, N> {
    ghost use Rattle.session_workers.specs.ReaderRuns.{ReadsAll};

    type Done = ReaderDone<D, N>;

    ghost may_end = { λ job done. ReadsAll D.dials D.faults N.arrivals N.faults job.reader
        done.reader };

    fn run(self) -> ReaderDone<D, N> {
        let ReaderJob {
            rt,
            alloc,
            ends,
            shelf,
            clock,
            gate,
            mut reader,
        } = self;
        let mut turn: u64 = 0;
        for _ in rt.forever() {
            turn = turn.saturating_add(1);
            gate.mark(LINK_READER, turn);
            reader.turn(rt, alloc, ends, shelf, clock);
            if reader.state.over.is_some() {
                close_unless_closed(rt, ends, &mut reader.end, clock, &reader.state.over);
                return ReaderDone { reader };
            }
        }
        unreachable!()
    }
}

/// Closes the end where the reader ended otherwise than at a closed end.
fn close_unless_closed<R: Wait, C: Clock>(
    rt: &R,
    ends: &TurnLock<Held>,
    seat: &mut Seat<Held>,
    clock: &C,
    over: &Option<ReadEnd>,
)
    requires { IsSeatOf ends.now seat.old }
    ensures { AddsCalls seat.old (reader_closing over.now) seat.new }
{
    match over {
        None => {}
        Some(ReadEnd::Closed) => {}
        Some(_) => close(rt, ends, seat, clock),
    }
}
