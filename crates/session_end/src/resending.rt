//! The resend worker in a thread of its own, beside those of the link reader and the deliverer.

ghost use Rattle.std.specs.Prelude.{◌≡◌, ◌≤◌, ◌++◌, [], false, is_some};
ghost use Rattle.turn_lock.specs.Seats.{IsSeatOf};
ghost use Rattle.session_run.specs.Adds.{AddsCalls};
ghost use Rattle.session_end.specs.Ran.{DelivererRan, ReaderRan, ResenderRan};
ghost use Rattle.session_end.specs.Starts.{closing_unless};

use crate::delivering::Service;
use crate::reading::{AfterReader, run_reader};
use crate::starts::start_or_close;
use chan_io::{Clock, Dialer, LinkIn, Spawner};
use session_crews::RunContext;
use session_feeds::Session;
use session_run::{Gate, Held};
use session_workers::{ReaderJob, ResendJob, Resender};
use std::sync::Wait;
use std::thread::Threads;
use turn_lock::Seat;

/// What is there once the resend worker and these were joined.
#[derive(Drop)]
pub(crate) struct AfterResender<D, N, S, W> {
    /// The resend worker. It was not started where it is not over.
    pub resender: Resender,
    /// The number on which the end gave up, if it did.
    pub gave_up: Option<u64>,
    /// What is there of the others.
    pub rest: AfterReader<D, N, S, W>,
}

/// Starts the resend worker, the link reader and the deliverer, and joins them.
pub(crate) fn run_resender<
    's,
    'e,
    R: Threads + Wait + Sync + 's,
    C: Clock + Sync + 's,
    G: Gate + 's,
    D: Dialer + Send + Drop + 's,
    N: LinkIn + Send + Drop + 's,
    S: Session + 's,
    W: Spawner + Send + 's,
>(
    ctx: &RunContext<'s, 'e, R, C, G>,
    mut main: Seat<Held>,
    mut spawner: W,
    resender: ResendJob<'s, R, C, G>,
    reader: ReaderJob<'s, R, C, G, D, N>,
    service: Service<S>,
) -> AfterResender<D, N, S, W>
where
    S::F: 's,
    requires main { IsSeatOf ctx.now.ends.now main }
    requires end { IsSeatOf ctx.now.ends.now service.end }
    requires shelf { IsSeatOf ctx.now.shelf.now service.shelf }
    requires unbegun { S.begun service.session ≡ false }
    requires none_out { S.out service.session ≡ [] }
    ensures resent { ResenderRan resender.entry.resender result.resender result.gave_up
        (W.faults spawner) (W.faults result.rest.rest.spawner) }
    ensures read { ReaderRan D.dials D.faults N.arrivals N.faults reader.entry.reader
        result.rest.reader (W.faults spawner) (W.faults result.rest.rest.spawner) }
    ensures served { DelivererRan S.stands S.out S.begun S.refused service result.rest.rest
        (W.faults spawner) (W.faults result.rest.rest.spawner) }
    ensures calls { AddsCalls main (closing_unless result.resender.over
        ++ (closing_unless (is_some result.rest.reader.state.over)
        ++ closing_unless (is_some result.rest.rest.ended))) result.rest.rest.main }
    ensures counted { W.faults spawner ≤ W.faults result.rest.rest.spawner }
{
    let started = start_or_close(ctx, &mut main, &mut spawner, resender);
    let rest = run_reader(ctx, main, spawner, reader, service);
    match started {
        Ok(running) => {
            let done = running.join(ctx.rt);
            AfterResender {
                resender: done.resender,
                gave_up: done.gave_up,
                rest,
            }
        }
        Err(job) => AfterResender {
            resender: resender_of(job),
            gave_up: None,
            rest,
        },
    }
}

/// The resend worker of a job that was not started.
fn resender_of<R, C, G>(job: ResendJob<'_, R, C, G>) -> Resender
    ensures { result ≡ job.entry.resender }
{
    let ResendJob {
        rt: _,
        ends: _,
        clock: _,
        gate: _,
        resender,
    } = job;
    resender
}
