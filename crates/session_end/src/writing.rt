//! The link writer in a thread of its own, beside those of the other workers.

ghost use Rattle.std.specs.Prelude.{◌≡◌, ◌≤◌, ◌++◌, [], false, true, is_some};
ghost use Rattle.turn_lock.specs.Seats.{IsSeatOf};
ghost use Rattle.session_run.specs.Adds.{AddsCalls};
ghost use Rattle.session_workers.specs.Writing.{Departs};
ghost use Rattle.session_end.specs.Deeds.{early_closes};
ghost use Rattle.session_end.specs.Ran.{DelivererRan, ReaderRan, ResenderRan, WriterRan};

use crate::delivering::Service;
use crate::resending::{AfterResender, run_resender};
use crate::starts::start_or_close;
use chan_io::{Clock, Dialer, LinkIn, LinkOut, Spawner};
use session_crews::RunContext;
use session_feeds::Session;
use session_run::{Gate, Held};
use session_workers::{LinkWriter, ReaderJob, ResendJob, WorkerEnd, WriterJob};
use std::sync::Wait;
use std::thread::Threads;
use turn_lock::Seat;

/// What is there once all workers were joined.
#[derive(Drop)]
pub(crate) struct AfterWriter<D, N, U, S, W> {
    /// The link writer.
    pub writer: LinkWriter<U>,
    /// How it ended; none where it was not started.
    pub end: Option<WorkerEnd>,
    /// What is there of the others.
    pub rest: AfterResender<D, N, S, W>,
}

/// Starts the workers, and joins them. A link writer that can't be started shuts its link at once:
/// else the link reader may wait for a message forever.
pub(crate) fn run_workers<
    's,
    'e,
    R: Threads + Wait + Sync + 's,
    C: Clock + Sync + 's,
    G: Gate + 's,
    D: Dialer + Send + Drop + 's,
    N: LinkIn + Send + Drop + 's,
    U: LinkOut + Send + Drop + 's,
    S: Session + 's,
    W: Spawner + Send + 's,
>(
    ctx: &RunContext<'s, 'e, R, C, G>,
    mut main: Seat<Held>,
    mut spawner: W,
    writer: WriterJob<'s, R, C, G, U>,
    resender: ResendJob<'s, R, C, G>,
    reader: ReaderJob<'s, R, C, G, D, N>,
    service: Service<S>,
) -> AfterWriter<D, N, U, S, W>
where
    S::F: 's,
    requires main { IsSeatOf ctx.now.ends.now main }
    requires end { IsSeatOf ctx.now.ends.now service.end }
    requires shelf { IsSeatOf ctx.now.shelf.now service.shelf }
    requires unbegun { S.begun service.session ≡ false }
    requires none_out { S.out service.session ≡ [] }
    ensures wrote { WriterRan U.departures U.faults writer.entry.writer result.writer result.end
        (W.faults spawner) (W.faults result.rest.rest.rest.spawner) }
    ensures resent { ResenderRan resender.entry.resender result.rest.resender result.rest.gave_up
        (W.faults spawner) (W.faults result.rest.rest.rest.spawner) }
    ensures read { ReaderRan D.dials D.faults N.arrivals N.faults reader.entry.reader
        result.rest.rest.reader (W.faults spawner) (W.faults result.rest.rest.rest.spawner) }
    ensures served { DelivererRan S.stands S.out S.begun S.refused service result.rest.rest.rest
        (W.faults spawner) (W.faults result.rest.rest.rest.spawner) }
    ensures calls { AddsCalls main (early_closes result.end result.rest.resender.over
        result.rest.rest.reader.state.over result.rest.rest.rest.ended)
        result.rest.rest.rest.main }
{
    let started = start_or_close(ctx, &mut main, &mut spawner, writer);
    match started {
        Ok(running) => {
            let rest = run_resender(ctx, main, spawner, resender, reader, service);
            let done = running.join(ctx.rt);
            AfterWriter {
                writer: done.writer,
                end: Some(done.end),
                rest,
            }
        }
        Err(job) => {
            let writer = shut_writer(job);
            let rest = run_resender(ctx, main, spawner, resender, reader, service);
            AfterWriter {
                writer,
                end: None,
                rest,
            }
        }
    }
}

/// The writer of a job that was not started, with its link shut.
fn shut_writer<R, C, G, U: LinkOut>(job: WriterJob<'_, R, C, G, U>) -> LinkWriter<U>
    ensures kept { result ≡ record job.entry.writer { output = result.output } }
    ensures shut { Departs [] true (U.departures job.entry.writer.output)
        (U.departures result.output) }
    ensures counted { U.faults result.output ≡ U.faults job.entry.writer.output }
{
    let WriterJob {
        rt: _,
        alloc: _,
        ends: _,
        shelf: _,
        clock: _,
        gate: _,
        mut writer,
    } = job;
    writer.output.shut();
    writer
}
