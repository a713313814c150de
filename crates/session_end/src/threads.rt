//! The scope in which the threads of a run live.

ghost use Rattle.std.specs.Prelude.{◌≡◌};
ghost use Rattle.std.specs.Thread.{IsSync};
ghost use Rattle.session_end.specs.Crews.{CrewRan, IsCrewOf, StartedRan};

use crate::crew::{Crew, Joined};
use crate::delivering::AfterDeliverer;
use crate::leftover::serve_left;
use crate::plan::Shared;
use crate::reading::AfterReader;
use crate::resending::AfterResender;
use crate::writing::{AfterWriter, run_workers};
use chan_io::{Clock, Dialer, LinkIn, LinkOut, Spawner};
use session_crews::RunContext;
use session_feeds::Session;
use session_run::Gate;
use session_workers::{ReaderJob, ResendJob, WriterJob};
use std::alloc::Global;
use std::sync::Wait;
use std::thread;
use std::thread::{Scope, Threads};

/// Runs the workers in threads of a scope of their own, and serves what they left.
pub(crate) fn in_threads<
    'e,
    R: Threads + Wait + Sync + 'e,
    C: Clock + Sync + 'e,
    G: Gate + 'e,
    D: Dialer + Send + Drop + 'e,
    N: LinkIn + Send + Drop + 'e,
    U: LinkOut + Send + Drop + 'e,
    S: Session + 'e,
    W: Spawner + Send + 'e,
>(
    rt: &'e R,
    alloc: Global,
    shared: &'e Shared,
    clock: &'e C,
    gate: &'e G,
    crew: Crew<D, N, U, S>,
    spawner: W,
) -> Joined<D, N, U, S, W>
where
    S::F: 'e,
    requires { IsCrewOf S.begun S.out shared.now.ends shared.now.shelf crew }
    ensures { CrewRan D.dials D.faults N.arrivals N.faults U.departures U.faults S.stands S.out
        S.begun S.refused crew result (W.faults spawner) (W.faults result.spawner) }
{
    thread::scope(
        thread::scope_env::<'e>(),
        rt,
        move |scope| -> Joined<D, N, U, S, W>
            requires crew { IsCrewOf S.begun S.out shared.now.ends shared.now.shelf crew }
            requires sync { IsSync R.row }
            ensures { CrewRan D.dials D.faults N.arrivals N.faults U.departures U.faults S.stands
                S.out S.begun S.refused crew result (W.faults spawner)
                (W.faults result.spawner) }
        {
            let ctx = RunContext {
                rt,
                scope,
                alloc,
                ends: &shared.ends,
                shelf: &shared.shelf,
                clock,
                gate,
                numbers: &shared.numbers,
                base: shared.base,
            };
            run_crew(&ctx, crew, spawner)
        },
    )
}

/// Starts the workers in this scope, joins them, and serves what they left.
fn run_crew<
    's,
    'e,
    R: Threads + Wait + Sync + 's,
    C: Clock + Sync + 's,
    G: Gate + 's,
    D: Dialer + Send + Drop + 's,
    N: LinkIn + Send + Drop + 's,
    U: LinkOut + Send + Drop + 's,
    S: Session + 's,
    W: Spawner + Send + 's,
>(ctx: &RunContext<'s, 'e, R, C, G>, crew: Crew<D, N, U, S>, spawner: W) -> Joined<D, N, U, S, W>
where
    S::F: 's,
    requires { IsCrewOf S.begun S.out ctx.now.ends.now ctx.now.shelf.now crew }
    ensures { CrewRan D.dials D.faults N.arrivals N.faults U.departures U.faults S.stands S.out
        S.begun S.refused crew result (W.faults spawner) (W.faults result.spawner) }
{
    let AfterWriter { writer, end, rest } = start_crew(ctx, crew, spawner);
    let AfterResender {
        resender,
        gave_up,
        rest,
    } = rest;
    let AfterReader { reader, rest } = rest;
    let AfterDeliverer {
        mut service,
        refusals,
        ended,
        started,
        main,
        spawner,
    } = rest;
    let refused = serve_left(ctx, &mut service, ended);
    Joined {
        writer,
        written: end,
        resender,
        gave_up,
        reader,
        service,
        refusals,
        ended,
        started,
        refused,
        main,
        spawner,
    }
}

/// Starts the workers in this scope, and joins them.
fn start_crew<
    's,
    'e,
    R: Threads + Wait + Sync + 's,
    C: Clock + Sync + 's,
    G: Gate + 's,
    D: Dialer + Send + Drop + 's,
    N: LinkIn + Send + Drop + 's,
    U: LinkOut + Send + Drop + 's,
    S: Session + 's,
    W: Spawner + Send + 's,
>(
    ctx: &RunContext<'s, 'e, R, C, G>,
    crew: Crew<D, N, U, S>,
    spawner: W,
) -> AfterWriter<D, N, U, S, W>
where
    S::F: 's,
    requires { IsCrewOf S.begun S.out ctx.now.ends.now ctx.now.shelf.now crew }
    ensures { StartedRan D.dials D.faults N.arrivals N.faults U.departures U.faults S.stands S.out
        S.begun S.refused crew result (W.faults spawner)
        (W.faults result.rest.rest.rest.spawner) }
{
    let Crew {
        reader,
        writer,
        resender,
        service,
        main,
    } = crew;
    let writer = WriterJob {
        rt: ctx.rt,
        alloc: ctx.alloc,
        ends: ctx.ends,
        shelf: ctx.shelf,
        clock: ctx.clock,
        gate: ctx.gate,
        writer,
    };
    let resender = ResendJob {
        rt: ctx.rt,
        ends: ctx.ends,
        clock: ctx.clock,
        gate: ctx.gate,
        resender,
    };
    let reader = ReaderJob {
        rt: ctx.rt,
        alloc: ctx.alloc,
        ends: ctx.ends,
        shelf: ctx.shelf,
        clock: ctx.clock,
        gate: ctx.gate,
        reader,
    };
    run_workers(ctx, main, spawner, writer, resender, reader, service)
}
