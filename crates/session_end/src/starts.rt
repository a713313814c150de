//! A start of a worker, after which the end is closed where it failed.

ghost use Rattle.std.specs.Prelude.{◌≡◌, ◌≤◌, OnErr, is_ok};
ghost use Rattle.chan_io.specs.Faults.{Rises};
ghost use Rattle.turn_lock.specs.Seats.{IsSeatOf};
ghost use Rattle.session_run.specs.Adds.{AddsCalls};
ghost use Rattle.session_end.specs.Starts.{IsStartOf, closing_unless};

use chan_io::{Clock, Job, Running, Spawner};
use session_crews::RunContext;
use session_run::Held;
use session_run::end_seat::close;
use std::sync::Wait;
use std::thread::Threads;
use turn_lock::Seat;

/// Starts a job. Where it can't be started the end is closed at once, so that all other workers end
/// before anybody waits for them.
pub(crate) fn start_or_close<
    's,
    'e,
    R: Threads + Wait + Sync,
    C: Clock,
    G,
    W: Spawner,
    J: Job + 's,
>(
    ctx: &RunContext<'s, 'e, R, C, G>,
    main: &mut Seat<Held>,
    spawner: &mut W,
    job: J,
) -> Result<Running<'s, J>, J>
    requires { IsSeatOf ctx.now.ends.now main.old }
    ensures start { IsStartOf J.may_end job result }
    ensures calls { AddsCalls main.old (closing_unless (is_ok result)) main.new }
    ensures failed { OnErr result (Rises (W.faults spawner.old) (W.faults spawner.new)) }
    ensures counted { W.faults spawner.old ≤ W.faults spawner.new }
{
    match spawner.start(ctx.rt, ctx.scope, job) {
        Ok(running) => Ok(running),
        Err(job) => {
            close(ctx.rt, ctx.ends, main, ctx.clock);
            Err(job)
        }
    }
}

/// Closes the end unless a worker ran.
pub(crate) fn close_unless<R: Wait, C: Clock, G>(
    ctx: &RunContext<'_, '_, R, C, G>,
    main: &mut Seat<Held>,
    ran: bool,
)
    requires { IsSeatOf ctx.now.ends.now main.old }
    ensures { AddsCalls main.old (closing_unless ran) main.new }
{
    if !ran {
        close(ctx.rt, ctx.ends, main, ctx.clock);
    }
}
