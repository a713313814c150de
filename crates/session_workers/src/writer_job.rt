//! The link writer as a job.

ghost use Rattle.std.specs.Prelude.{◌≡◌, false};
ghost use Rattle.turn_lock.specs.Seats.{IsSeatOf};

use crate::link_writer::LinkWriter;
use crate::worker_end::WorkerEnd;
use chan_io::{Clock, Job, LinkOut};
use session_run::end_seat::close;
use session_run::{Gate, Held, Shelf};
use std::alloc::Global;
use std::sync::Wait;
use turn_lock::TurnLock;

/// The number of the link writer at the gate.
pub const LINK_WRITER: u32 = 1;

/// The link writer with all that it needs.
#[derive(Drop)]
pub struct WriterJob<'s, R, C, G, U> {
    /// The runtime.
    pub rt: &'s R,
    /// The memory for what it sends.
    pub alloc: Global,
    /// The lock over the end.
    pub ends: &'s TurnLock<Held>,
    /// The lock over the shelf.
    pub shelf: &'s TurnLock<Shelf>,
    /// The clock.
    pub clock: &'s C,
    /// What it passes at the beginning of each turn.
    pub gate: &'s G,
    /// The writer, before its first turn.
    pub writer: LinkWriter<U>,
    ghost new: { writer.over ≡ false },
    ghost its_end: { IsSeatOf ends.now writer.end },
    ghost its_shelf: { IsSeatOf shelf.now writer.shelf },
}

/// What the link writer ends with.
#[derive(Drop)]
pub struct WriterDone<U> {
    /// Its seats and its output.
    pub writer: LinkWriter<U>,
    /// How it ended.
    pub end: WorkerEnd,
}

impl<'s, R: Wait + Sync, C: Clock + Sync, G: Gate, U: LinkOut + Send + Drop> Job
    for WriterJob<'s, R, C, G, U> {
    ghost use Rattle.session_workers.specs.WriterRuns.{WroteAll};

    type Done = WriterDone<U>;

    ghost may_end = { λ job done. WroteAll U.departures U.faults job.writer done.writer done.end };

    fn run(self) -> WriterDone<U> {
        let WriterJob {
            rt,
            alloc,
            ends,
            shelf,
            clock,
            gate,
            mut writer,
        } = self;
        let mut turn: u64 = 0;
        for _ in rt.forever() {
            turn = turn.saturating_add(1);
            gate.mark(LINK_WRITER, turn);
            if writer.turn(rt, alloc, ends, shelf, clock).is_err() {
                close(rt, ends, &mut writer.end, clock);
                return WriterDone {
                    writer,
                    end: WorkerEnd::NoMemory,
                };
            }
            if writer.over {
                return WriterDone {
                    writer,
                    end: WorkerEnd::Closed,
                };
            }
        }
        unreachable!()
    }
}
