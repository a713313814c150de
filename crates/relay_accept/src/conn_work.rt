//! The worker of a connection.

ghost use Rattle.std.specs.Prelude.{◌≡◌, ◌≤◌, IfOk, IfErr, OnErr};
ghost use Rattle.std.specs.Thread.{IsSync};
ghost use Rattle.chan_io.specs.Calls.{IsCallOf};
ghost use Rattle.chan_io.specs.Faults.{Rises};
ghost use Rattle.relay_accept.specs.Conns.{ConnEnds, IsStarted};

use crate::conn_done::{ConnDone, FromConn};
use crate::conn_start::ConnStart;
use crate::run_end::RunEnd;
use crate::serve::serve;
use chan_io::{Clock, Entropy, LinkIn, LinkOut, RunningCall, Spawner};
use relay_desk::Desk;
use session_register::Keeper;
use std::snapshot::Snapshot;
use std::sync::Wait;
use std::sync::atomic::Ordering;
use std::thread::Threads;

/// The worker of a connection that was started.
pub(crate) type RunningConn<K, E, W> = RunningCall<ConnDone<Desk<K, E>, W>, FromConn<Desk<K, E>>>;

/// Serves a connection. A worker that ends with a refusal sets the mark.
fn run_conn<
    's,
    'e,
    R: Threads + Wait + Sync + 's,
    C: Clock + Sync + 's,
    K: Keeper + Send + Drop + 's,
    E: Entropy + Send + Drop + 's,
    N: LinkIn + Send + Drop + 's,
    U: LinkOut + Send + Drop + 's,
    W: Spawner + Send + 's,
>(start: ConnStart<'s, 'e, R, C, Desk<K, E>, N, U, W>) -> ConnDone<Desk<K, E>, W>
    ensures { ConnEnds W.faults start.entry.seats result }
{
    let ConnStart {
        ctx,
        flag,
        conn,
        input,
        output,
        mut seats,
        mut spawner,
    } = start;
    let end = serve(&ctx, conn, input, output, &mut seats, &mut spawner);
    if end != RunEnd::Over {
        ctx.mark.set();
    }
    flag.store(true, Ordering::SeqCst);
    ConnDone {
        seats,
        spawner,
        end,
    }
}

/// Runs the worker, or hands its parts back.
fn run_started<
    's,
    'e,
    R: Threads + Wait + Sync + 's,
    C: Clock + Sync + 's,
    K: Keeper + Send + Drop + 's,
    E: Entropy + Send + Drop + 's,
    N: LinkIn + Send + Drop + 's,
    U: LinkOut + Send + Drop + 's,
    W: Spawner + Send + 's,
>(start: ConnStart<'s, 'e, R, C, Desk<K, E>, N, U, W>, runs: bool) -> ConnDone<Desk<K, E>, W>
    ensures { ConnEnds W.faults start.entry.seats result }
{
    if runs {
        run_conn(start)
    } else {
        start.not_started()
    }
}

/// Starts the worker of a connection. Where it could not be started, what it was to have comes back.
pub(crate) fn start_conn<
    's,
    'e,
    R: Threads + Wait + Sync + 's,
    C: Clock + Sync + 's,
    K: Keeper + Send + Drop + 's,
    E: Entropy + Send + Drop + 's,
    N: LinkIn + Send + Drop + 's,
    U: LinkOut + Send + Drop + 's,
    W: Spawner + Send + 's,
>(
    start: ConnStart<'s, 'e, R, C, Desk<K, E>, N, U, W>,
    spawner: &mut W,
) -> Result<RunningConn<K, E, W>, ConnDone<Desk<K, E>, W>>
    ensures started { IfOk result (IsStarted W.faults start.entry.seats) }
    ensures back { IfErr result (ConnEnds W.faults start.entry.seats) }
    ensures failed { OnErr result (Rises (W.faults spawner.old) (W.faults spawner.new)) }
    ensures counted { W.faults spawner.old ≤ W.faults spawner.new }
{
    let rt = start.ctx.rt;
    let scope = start.ctx.scope;
    let promise = FromConn {
        seats: Snapshot::of(&start.seats),
    };
    let work = move |runs: bool| -> ConnDone<Desk<K, E>, W>
        requires sync { IsSync R.row }
        ensures { ConnEnds W.faults start.entry.seats result }
    { run_started(start, runs) };
    spawner.start_call(rt, scope, promise, work)
}
