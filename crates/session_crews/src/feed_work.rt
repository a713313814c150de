//! The workers of feeders, which start each other.

ghost use Rattle.std.specs.Prelude.{◌≡◌, ◌≤◌, ◌<◌, [], List, None, IfOk, IfErr, vec_len, vec_capacity};
ghost use Rattle.std.specs.Thread.{IsSync};
ghost use Rattle.turn_lock.specs.Seats.{IsSeatOf, SameLock};
ghost use Rattle.session_crews.specs.Crews.{Fed, IsRefused, IsStarted};
ghost use Rattle.session_crews.specs.FeedRuns.{GoesOn, HasCause, StartsOne, Working};
ghost use Rattle.session_crews.specs.FeedTurns.{FeedTurn};
ghost use Rattle.session_feeds.specs.Marks.{IsNew};
ghost use Rattle.session_crews.specs.Seats.{EndSeat, ShelfSeat};

use crate::crew::{Crew, absorb, gather, make_room, own_done};
use crate::feed_done::{FeedDone, FromFeeder};
use crate::feed_end::{FeedEnd, refused_end};
use crate::feed_start::FeedStart;
use crate::feed_step::{Step, feed_step};
use crate::feed_turn::Goes;
use crate::feeders::Place;
use crate::run_context::RunContext;
use chan_io::{Clock, RunningCall, Spawner};
use session_feeds::{Feeder, Ids};
use session_run::Gate;
use session_run::end_seat::look;
use std::sync::Wait;
use std::sync::atomic::Ordering;
use std::thread::Threads;

/// Takes turns until one is the last, and then joins the workers that were started.
#[cycle(feeding)]
fn run_feeder<
    's,
    'e,
    R: Threads + Wait + Sync + 's,
    C: Clock + Sync + 's,
    G: Gate + 's,
    W: Spawner + Send + 's,
    F: Feeder + Send + 's,
>(start: FeedStart<'s, 'e, R, C, G, W, F>) -> FeedDone<W, F>
    requires { IsNew (F.told start.feeder) }
    ensures { Fed F.told W.faults start.entry.end start.entry.shelf start.entry.feeder [] result }
{
    let FeedStart {
        ctx,
        depth,
        end,
        shelf,
        spawner,
        mut feeder,
        place,
    } = start;
    let worker = ctx.numbers.fetch_add(1, Ordering::SeqCst);
    let mut ids = Ids::new(ctx.base, worker);
    let mut crew = Crew {
        end,
        shelf,
        spawner,
        running: Vec::new(ctx.alloc),
    };
    let mut turn: u64 = 0;
    for _ in ctx.rt.forever() {
        turn = turn.saturating_add(1);
        ctx.gate.mark(worker, turn);
        match feed_turn(&ctx, depth, &mut crew, &mut ids, &mut feeder) {
            Goes::On => {}
            Goes::Ends(ending) => {
                let (done, running) = own_done(&ctx, crew, place, feeder, ending);
                return gather(&ctx, done, running);
            }
            Goes::Refused(ending, other) => {
                let (mut done, running) = own_done(&ctx, crew, place, feeder, ending);
                absorb(&ctx, &mut done, other);
                return gather(&ctx, done, running);
            }
        }
    }
    unreachable!()
}

/// Makes one turn of a feeder's worker.
#[cycle(feeding)]
fn feed_turn<
    's,
    'e,
    R: Threads + Wait + Sync + 's,
    C: Clock + Sync + 's,
    G: Gate + 's,
    W: Spawner + Send + 's,
    F: Feeder + Send + 's,
>(
    ctx: &RunContext<'s, 'e, R, C, G>,
    depth: u64,
    crew: &mut Crew<W, F>,
    ids: &mut Ids,
    feeder: &mut F,
) -> Goes<W, F>
    requires lock { IsSeatOf ctx.now.ends.now crew.old.end }
    requires shelf_lock { IsSeatOf ctx.now.shelf.now crew.old.shelf }
    requires on { (F.told feeder.old).came ≡ None }
    ensures goes { (end0 : EndSeat) (shelf0 : ShelfSeat) (feeder0 : F) (turns : List FeedTurn)
        → Working F.told W.faults ctx.now.ends.now ctx.now.shelf.now end0 shelf0 feeder0 turns None
        crew.old.end crew.old.shelf crew.old.running.items feeder.old
        → GoesOn F.told W.faults ctx.now.ends.now ctx.now.shelf.now end0 shelf0 feeder0 turns
        crew.new.end crew.new.shelf crew.new.running.items feeder.new result }
    ensures cause { HasCause (W.faults crew.new.spawner) result }
{
    let Some(place) = make_room(ctx.alloc, &mut crew.running) else {
        return Goes::Ends(FeedEnd::NoMemory);
    };
    let other = match feed_step(ctx, &mut crew.end, &mut crew.shelf, ids, feeder) {
        Step::Goes => return Goes::On,
        Step::Ends(ending) => return Goes::Ends(ending),
        Step::Another(other) => other,
    };
    match start_in_crew(ctx, depth, crew, place, other) {
        Ok(()) => {}
        Err((back, starved)) => return Goes::Refused(refused_end(starved), back),
    }
    if look(ctx.rt, ctx.ends, &mut crew.end).closed {
        return Goes::Ends(FeedEnd::Stopped);
    }
    Goes::On
}

/// Starts the worker of a feeder, with seats that are split off for it. Where it could not be
/// started, what it was to have comes back, with whether this was for want of memory.
#[cycle(feeding)]
pub fn start_in_crew<
    's,
    'e,
    R: Threads + Wait + Sync + 's,
    C: Clock + Sync + 's,
    G: Gate + 's,
    W: Spawner + Send + 's,
    F: Feeder + Send + 's,
>(
    ctx: &RunContext<'s, 'e, R, C, G>,
    depth: u64,
    crew: &mut Crew<W, F>,
    place: Place<F>,
    feeder: F,
) -> Result<(), (FeedDone<W, F>, bool)>
    requires lock { IsSeatOf ctx.now.ends.now crew.old.end }
    requires shelf_lock { IsSeatOf ctx.now.shelf.now crew.old.shelf }
    requires room { vec_len crew.old.running < vec_capacity crew.old.running }
    requires is_new { IsNew (F.told feeder) }
    ensures same_lock { SameLock crew.old.end crew.new.end }
    ensures same_shelf_lock { SameLock crew.old.shelf crew.new.shelf }
    ensures starts { StartsOne F.told W.faults ctx.now.ends.now ctx.now.shelf.now
        (F.told feeder).mark crew.old crew.new result }
    ensures failed { IfErr result (λ r. IsRefused r.1 (W.faults crew.old.spawner)
        (W.faults crew.new.spawner)) }
{
    let Ok(end) = ctx.ends.split(&mut crew.end) else {
        unreachable!()
    };
    let Ok(shelf) = ctx.shelf.split(&mut crew.shelf) else {
        unreachable!()
    };
    let kept = FromFeeder::new(&end, &shelf, &feeder);
    let start = FeedStart {
        ctx: ctx.again(),
        depth,
        end,
        shelf,
        spawner: crew.spawner.twin(),
        feeder,
        place,
    };
    match start_feeder(start, &mut crew.spawner) {
        Ok(call) => {
            crew.running.push_reserved((call, kept));
            Ok(())
        }
        Err(refused) => Err(refused),
    }
}

/// Runs the worker, or hands its parts back.
#[cycle(feeding)]
pub(crate) fn run_started<
    's,
    'e,
    R: Threads + Wait + Sync + 's,
    C: Clock + Sync + 's,
    G: Gate + 's,
    W: Spawner + Send + 's,
    F: Feeder + Send + 's,
>(start: FeedStart<'s, 'e, R, C, G, W, F>, runs: bool) -> FeedDone<W, F>
    requires { IsNew (F.told start.feeder) }
    ensures { Fed F.told W.faults start.entry.end start.entry.shelf start.entry.feeder [] result }
{
    if runs {
        run_feeder(start)
    } else {
        start.not_started()
    }
}

/// Starts the worker of a feeder. Where it could not be started, what it has comes back, with
/// whether this was for want of memory.
#[cycle(feeding)]
fn start_feeder<
    's,
    'e,
    R: Threads + Wait + Sync + 's,
    C: Clock + Sync + 's,
    G: Gate + 's,
    W: Spawner + Send + 's,
    F: Feeder + Send + 's,
>(
    mut start: FeedStart<'s, 'e, R, C, G, W, F>,
    spawner: &mut W,
) -> Result<RunningCall<FeedDone<W, F>, FromFeeder<F>>, (FeedDone<W, F>, bool)>
    requires { IsNew (F.told start.feeder) }
    ensures started { IfOk result (IsStarted F.told W.faults start.entry.end start.entry.shelf
        start.entry.feeder) }
    ensures back { IfErr result (λ r. Fed F.told W.faults start.entry.end start.entry.shelf
        start.entry.feeder [] r.0) }
    ensures failed { IfErr result (λ r. IsRefused r.1 (W.faults spawner.old)
        (W.faults spawner.new)) }
    ensures counted { W.faults spawner.old ≤ W.faults spawner.new }
{
    if start.depth == 0 {
        return Err((start.not_started(), true));
    }
    start.depth -= 1;
    let rt = start.ctx.rt;
    let scope = start.ctx.scope;
    let promise = FromFeeder::new(&start.end, &start.shelf, &start.feeder);
    let work = move |runs: bool| -> FeedDone<W, F>
        requires sync { IsSync R.row }
        requires is_new { IsNew (F.told start.feeder) }
        ensures { Fed F.told W.faults start.entry.end start.entry.shelf start.entry.feeder []
            result }
    { run_started(start, runs) };
    match spawner.start_call(rt, scope, promise, work) {
        Ok(call) => Ok(call),
        Err(done) => Err((done, false)),
    }
}
