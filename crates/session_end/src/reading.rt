//! The link reader in a thread of its own, beside the deliverer's.

ghost use Rattle.std.specs.Prelude.{◌≡◌, ◌≤◌, ◌++◌, [], false, is_some};
ghost use Rattle.turn_lock.specs.Seats.{IsSeatOf};
ghost use Rattle.session_run.specs.Adds.{AddsCalls};
ghost use Rattle.session_end.specs.Ran.{DelivererRan, ReaderRan};
ghost use Rattle.session_end.specs.Starts.{closing_unless};

use crate::delivering::{AfterDeliverer, Service, run_deliverer};
use crate::starts::start_or_close;
use chan_io::{Clock, Dialer, LinkIn, Spawner};
use session_crews::RunContext;
use session_feeds::Session;
use session_run::{Gate, Held};
use session_workers::{LinkReader, ReaderJob};
use std::sync::Wait;
use std::thread::Threads;
use turn_lock::Seat;

/// What is there once the link reader and the deliverer were joined.
#[derive(Drop)]
pub(crate) struct AfterReader<D, N, S, W> {
    /// The link reader. It was not started where it has not ended.
    pub reader: LinkReader<D, N>,
    /// What is there of the deliverer.
    pub rest: AfterDeliverer<S, W>,
}

/// Starts the link reader and the deliverer, and joins them.
pub(crate) fn run_reader<
    's,
    'e,
    R: Threads + Wait + Sync + 's,
    C: Clock + Sync + 's,
    G: Gate + 's,
    D: Dialer + Send + Drop + 's,
    N: LinkIn + Send + Drop + 's,
    S: Session + 's,
    W: Spawner + Send + 's,
>(
    ctx: &RunContext<'s, 'e, R, C, G>,
    mut main: Seat<Held>,
    mut spawner: W,
    reader: ReaderJob<'s, R, C, G, D, N>,
    service: Service<S>,
) -> AfterReader<D, N, S, W>
where
    S::F: 's,
    requires main { IsSeatOf ctx.now.ends.now main }
    requires end { IsSeatOf ctx.now.ends.now service.end }
    requires shelf { IsSeatOf ctx.now.shelf.now service.shelf }
    requires unbegun { S.begun service.session ≡ false }
    requires none_out { S.out service.session ≡ [] }
    ensures read { ReaderRan D.dials D.faults N.arrivals N.faults reader.entry.reader
        result.reader (W.faults spawner) (W.faults result.rest.spawner) }
    ensures served { DelivererRan S.stands S.out S.begun S.refused service result.rest
        (W.faults spawner) (W.faults result.rest.spawner) }
    ensures calls { AddsCalls main (closing_unless (is_some result.reader.state.over)
        ++ closing_unless (is_some result.rest.ended)) result.rest.main }
    ensures counted { W.faults spawner ≤ W.faults result.rest.spawner }
{
    let started = start_or_close(ctx, &mut main, &mut spawner, reader);
    let rest = run_deliverer(ctx, main, spawner, service);
    match started {
        Ok(running) => {
            let done = running.join(ctx.rt);
            AfterReader {
                reader: done.reader,
                rest,
            }
        }
        Err(job) => AfterReader {
            reader: reader_of(job),
            rest,
        },
    }
}

/// The reader of a job that was not started.
fn reader_of<R, C, G, D, N>(job: ReaderJob<'_, R, C, G, D, N>) -> LinkReader<D, N>
    ensures { result ≡ job.entry.reader }
{
    let ReaderJob {
        rt: _,
        alloc: _,
        ends: _,
        shelf: _,
        clock: _,
        gate: _,
        reader,
    } = job;
    reader
}
