//! The deliverer in a thread of its own.

ghost use Rattle.std.specs.Prelude.{◌≡◌, ◌≤◌, ℕ, List, [], false, is_some, true, None, IfOk, IfErr, OnErr};
ghost use Rattle.std.specs.Thread.{IsSync};
ghost use Rattle.chan_io.specs.Faults.{Rises};
ghost use Rattle.session_crews.specs.Seats.{EndSeat, ShelfSeat};
ghost use Rattle.session_delivery.specs.Answers.{ended_by};
ghost use Rattle.session_delivery.specs.DeliverSteps.{Serving};
ghost use Rattle.session_delivery.specs.Delivering.{DeliverStep};
ghost use Rattle.session_delivery.specs.Deliveries.{IsDelivererStart, IsDelivery};

use crate::deliver_done::{DeliverDone, FromDeliverer};
use crate::deliver_start::DeliverStart;
use crate::delivered::Delivered;
use crate::deliverer::Deliverer;
use crate::giving_back::{give_back, give_back_left};
use crate::leaving::{Leaving, leave};
use chan_io::{Clock, RunningCall, Spawner};
use session_crews::{Crew, FeedDone, Refusals, RunContext, gather};
use session_feeds::{Ids, Session};
use session_run::Gate;
use std::sync::Wait;
use std::thread::Threads;

/// The number of the deliverer at the gate.
pub const DELIVERER: u32 = 3;

/// Starts the deliverer. Where it could not be started, what it was to have comes back.
pub fn start_deliverer<
    's,
    'e,
    R: Threads + Wait + Sync + 's,
    C: Clock + Sync + 's,
    G: Gate + 's,
    W: Spawner + Send + 's,
    S: Session + 's,
>(
    start: DeliverStart<'s, 'e, R, C, G, W, S>,
    spawner: &mut W,
) -> Result<RunningCall<DeliverDone<W, S>, FromDeliverer<S>>, DeliverDone<W, S>>
where
    S::F: 's,
    requires new { S.begun start.session ≡ false }
    requires none_out { S.out start.session ≡ [] }
    ensures started { IfOk result (IsDelivererStart S.stands S.out S.begun S.refused W.faults
        start.entry.session start.entry.end start.entry.shelf) }
    ensures back { IfErr result (λ done. IsDelivery S.stands S.out S.begun S.refused W.faults
        start.entry.session start.entry.end start.entry.shelf done × (done.ended ≡ None)) }
    ensures failed { OnErr result (Rises (W.faults spawner.old) (W.faults spawner.new)) }
    ensures counted { W.faults spawner.old ≤ W.faults spawner.new }
{
    let rt = start.ctx.rt;
    let scope = start.ctx.scope;
    let promise = FromDeliverer::new(&start.end, &start.shelf, &start.session);
    let work = move |runs: bool| -> DeliverDone<W, S>
        requires sync { IsSync R.row }
        requires new { S.begun start.session ≡ false }
        requires none_out { S.out start.session ≡ [] }
        ensures did { IsDelivery S.stands S.out S.begun S.refused W.faults start.entry.session
            start.entry.end start.entry.shelf result }
        ensures idle { runs ≡ false → result.ended ≡ None }
    { run_started(start, runs) };
    spawner.start_call(rt, scope, promise, work)
}

/// Runs the deliverer, or hands its parts back.
fn run_started<
    's,
    'e,
    R: Threads + Wait + Sync + 's,
    C: Clock + Sync + 's,
    G: Gate + 's,
    W: Spawner + Send + 's,
    S: Session + 's,
>(start: DeliverStart<'s, 'e, R, C, G, W, S>, runs: bool) -> DeliverDone<W, S>
where
    S::F: 's,
    requires new { S.begun start.session ≡ false }
    requires none_out { S.out start.session ≡ [] }
    ensures did { IsDelivery S.stands S.out S.begun S.refused W.faults start.entry.session
        start.entry.end start.entry.shelf result }
    ensures idle { runs ≡ false → result.ended ≡ None }
{
    if runs {
        return run_deliverer(start);
    }
    not_started(start)
}

/// What a deliverer ends with that was not started.
fn not_started<R, C, G, W: Spawner, S: Session>(
    start: DeliverStart<'_, '_, R, C, G, W, S>,
) -> DeliverDone<W, S>
    requires new { S.begun start.session ≡ false }
    requires none_out { S.out start.session ≡ [] }
    ensures did { IsDelivery S.stands S.out S.begun S.refused W.faults start.entry.session
        start.entry.end start.entry.shelf result }
    ensures idle { result.ended ≡ None }
{
    let DeliverStart {
        ctx: _,
        depth: _,
        end,
        shelf,
        spawner,
        session,
    } = start;
    DeliverDone {
        session,
        end,
        shelf,
        spawner,
        refusals: Refusals::NONE,
        ended: None,
    }
}

/// Makes steps until one is the last, and then ends.
fn run_deliverer<
    's,
    'e,
    R: Threads + Wait + Sync + 's,
    C: Clock + Sync + 's,
    G: Gate + 's,
    W: Spawner + Send + 's,
    S: Session + 's,
>(start: DeliverStart<'s, 'e, R, C, G, W, S>) -> DeliverDone<W, S>
where
    S::F: 's,
    requires new { S.begun start.session ≡ false }
    requires none_out { S.out start.session ≡ [] }
    ensures { IsDelivery S.stands S.out S.begun S.refused W.faults start.entry.session
        start.entry.end start.entry.shelf result }
{
    let DeliverStart {
        ctx,
        depth,
        end,
        shelf,
        spawner,
        session,
    } = start;
    let crew = Crew {
        end,
        shelf,
        spawner,
        running: Vec::new(ctx.alloc),
    };
    let mut deliverer = Deliverer {
        session,
        crew,
        ids: Ids::new(ctx.base, DELIVERER),
        begun: false,
        may_take: false,
        closed: false,
        stopped: false,
    };
    let mut turn: u64 = 0;
    for _ in ctx.rt.forever() {
        turn = turn.saturating_add(1);
        ctx.gate.mark(DELIVERER, turn);
        let answer = deliverer.step(&ctx, depth);
        if answer.ended().is_some() {
            return finish(&ctx, deliverer, answer);
        }
    }
    unreachable!()
}

/// Joins the workers of feeders, the latest first, and gives the session its feeders back.
fn finish<R: Threads + Wait, C: Clock, G, W: Spawner, S: Session>(
    ctx: &RunContext<'_, '_, R, C, G>,
    deliverer: Deliverer<W, S, S::F>,
    last: Delivered<W, S::F>,
) -> DeliverDone<W, S>
    requires serving { (session0 : S) × (end0 : EndSeat) × (shelf0 : ShelfSeat)
        × (steps : List DeliverStep)
        × Serving S.F.Feeder.told W.faults ctx.now.ends.now ctx.now.shelf.now S.stands S.out
        S.begun S.refused session0 end0 shelf0 steps deliverer last }
    requires last { is_some (ended_by last) ≡ true }
    ensures { (session0 : S) (end0 : EndSeat) (shelf0 : ShelfSeat) (steps : List DeliverStep)
        → Serving S.F.Feeder.told W.faults ctx.now.ends.now ctx.now.shelf.now S.stands S.out
        S.begun S.refused session0 end0 shelf0 steps deliverer last
        → IsDelivery S.stands S.out S.begun S.refused W.faults session0 end0 shelf0 result }
{
    let ended = last.ended();
    let Deliverer {
        mut session,
        crew,
        ..
    } = deliverer;
    let Leaving {
        done,
        running,
        left,
    } = leave(ctx, crew, last);
    let FeedDone {
        end,
        shelf,
        spawner,
        feeders,
        refusals,
        started: _,
    } = gather(ctx, done, running);
    give_back(ctx.rt, &mut session, feeders);
    give_back_left(&mut session, left);
    DeliverDone {
        session,
        end,
        shelf,
        spawner,
        refusals,
        ended,
    }
}
