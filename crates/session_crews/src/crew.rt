//! A worker with those that it started.

ghost use Rattle.std.specs.Prelude.{◌≡◌, ◌≤◌, ◌<◌, ℕ, List, [], ◌∷◌, ◌++◌, All, IsSome, Some, true, vec_len, vec_capacity};
ghost use Rattle.channel_core.specs.declared.call.EndAnswer.{EndAnswer};
ghost use Rattle.channel_core.specs.declared.call.EndCall.{EndCall};
ghost use Rattle.turn_lock.specs.Seats.{IsSeatOf, SameLock};
ghost use Rattle.session_run.specs.Adds.{AddsCalls};
ghost use Rattle.session_crews.specs.Crews.{Fed, IsNewPromise, IsOut, Joins, MayAbsorb, Own, promises};
ghost use Rattle.session_crews.specs.Seats.{EndSeat, ShelfSeat};
ghost use Rattle.session_crews.specs.FeedTurns.{FeedPart, closing, refusal_of};
ghost use Rattle.session_crews.specs.declared.feed_done.FromFeeder.{FromFeeder};

use crate::feed_done::{FeedDone, FromFeeder};
use crate::feed_end::{FeedEnd, Refusals, is_refusal};
use crate::feeders::Place;
use crate::run_context::RunContext;
use chan_io::{Clock, RunningCall, Spawner};
use session_feeds::Feeder;
use session_run::end_seat::close;
use session_run::{Held, Shelf};
use std::alloc::Global;
use std::sync::Wait;
use std::thread::Threads;
use turn_lock::Seat;

/// A worker's seats and spawner, with the workers that it started.
#[derive(Drop)]
pub struct Crew<W: Spawner, F: Feeder> {
    /// Its seat on the lock over the end.
    pub end: Seat<Held>,
    /// Its seat on the lock over the shelf.
    pub shelf: Seat<Shelf>,
    /// What starts workers.
    pub spawner: W,
    /// The workers that it started and did not join yet, the latest last; beside each what it
    /// promised.
    pub running: Vec<(RunningCall<FeedDone<W, F>, FromFeeder<F>>, FromFeeder<F>)>,
}

/// Makes room for one call more, and a place for its feeder.
pub fn make_room<T: Drop, F: Drop>(alloc: Global, running: &mut Vec<T>) -> Option<Place<F>>
    ensures items { running.new.items ≡ running.old.items }
    ensures room { IsSome result → vec_len running.new < vec_capacity running.new }
{
    if running.reserve(1).is_err() {
        return None;
    }
    Place::new(alloc).ok()
}

/// Takes in what another worker ended with, the latest of those that are out.
pub fn absorb<R: Wait, C, G, W: Spawner, F: Feeder>(
    ctx: &RunContext<'_, '_, R, C, G>,
    done: &mut FeedDone<W, F>,
    other: FeedDone<W, F>,
)
    requires lock { IsSeatOf ctx.now.ends.now done.old.end }
    requires shelf_lock { IsSeatOf ctx.now.shelf.now done.old.shelf }
    requires other_lock { IsSeatOf ctx.now.ends.now other.end }
    requires other_shelf_lock { IsSeatOf ctx.now.shelf.now other.shelf }
    ensures same_lock { SameLock done.old.end done.new.end }
    ensures same_shelf_lock { SameLock done.old.shelf done.new.shelf }
    ensures started { done.new.started ≡ done.old.started }
    ensures joins { (own : Own) (out : List (FromFeeder F)) (parts : List FeedPart)
        (p : FromFeeder F)
        → IsNewPromise p
        → (fed : Fed F.told W.faults p.end.value p.shelf.value p.feeder.value [] other)
        → MayAbsorb done.old.refusals other.started
        → Joins F.told W.faults own (out ++ p ∷ []) parts done.old
        → Joins F.told W.faults own out (parts ++ fed.own ∷ fed.others) done.new }
{
    let FeedDone {
        end: other_end,
        shelf: other_shelf,
        spawner,
        feeders,
        refusals,
        started: _,
    } = other;
    ctx.ends.join(&mut done.end, other_end);
    ctx.shelf.join(&mut done.shelf, other_shelf);
    done.spawner.merge(spawner);
    done.feeders.append(ctx.rt, feeders);
    done.refusals = done.refusals.with(refusals);
}

/// What a worker that was started ended with. One whose thread gave the work back in place of
/// running it counts as one that wanted memory, so it closes the end.
fn settled<R: Wait, C: Clock, G, W: Spawner, F: Feeder>(
    ctx: &RunContext<'_, '_, R, C, G>,
    mut done: FeedDone<W, F>,
) -> FeedDone<W, F>
    requires { IsSeatOf ctx.now.ends.now done.end }
    ensures same_lock { SameLock done.end result.end }
    ensures same_shelf_lock { SameLock done.shelf result.shelf }
    ensures started { result.started ≡ true }
    ensures fed { (end0 : EndSeat) (shelf0 : ShelfSeat) (feeder0 : F)
        → Fed F.told W.faults end0 shelf0 feeder0 [] done
        → Fed F.told W.faults end0 shelf0 feeder0 [] result }
{
    if done.started {
        return done;
    }
    close(ctx.rt, ctx.ends, &mut done.end, ctx.clock);
    done.refusals = Refusals::of(FeedEnd::NoMemory);
    done.started = true;
    done
}

/// Joins the workers that are out, the latest first.
pub fn gather<R: Threads + Wait, C: Clock, G, W: Spawner, F: Feeder>(
    ctx: &RunContext<'_, '_, R, C, G>,
    mut done: FeedDone<W, F>,
    mut running: Vec<(RunningCall<FeedDone<W, F>, FromFeeder<F>>, FromFeeder<F>)>,
) -> FeedDone<W, F>
    requires lock { IsSeatOf ctx.now.ends.now done.end }
    requires shelf_lock { IsSeatOf ctx.now.shelf.now done.shelf }
    requires out { All (IsOut F.told W.faults ctx.now.ends.now ctx.now.shelf.now) running.items }
    ensures lock { IsSeatOf ctx.now.ends.now result.end }
    ensures shelf_lock { IsSeatOf ctx.now.shelf.now result.shelf }
    ensures started { result.started ≡ done.started }
    ensures joins { (own : Own) (parts : List FeedPart)
        → Joins F.told W.faults own (promises running.items) parts done
        → (more : List FeedPart) × Joins F.told W.faults own [] (parts ++ more) result }
{
    for _ in ctx.rt.forever() {
        match running.pop() {
            Some((call, _promise)) => {
                let joined = call.join(ctx.rt);
                let other = settled(ctx, joined);
                absorb(ctx, &mut done, other);
            }
            None => return done,
        }
    }
    unreachable!()
}

/// What a feeder's worker ends with before it joins those that it started, and these. One that ends
/// with a refusal closes the end first, so that they end.
pub(crate) fn own_done<R: Wait, C: Clock, G, W: Spawner, F: Feeder>(
    ctx: &RunContext<'_, '_, R, C, G>,
    crew: Crew<W, F>,
    place: Place<F>,
    feeder: F,
    ending: FeedEnd,
) -> (
    FeedDone<W, F>,
    Vec<(RunningCall<FeedDone<W, F>, FromFeeder<F>>, FromFeeder<F>)>,
)
    requires { IsSeatOf ctx.now.ends.now crew.end }
    ensures end { AddsCalls crew.end (closing (Some ending)) result.0.end }
    ensures shelf { result.0.shelf ≡ crew.shelf }
    ensures spawner { result.0.spawner ≡ crew.spawner }
    ensures feeders { result.0.feeders.list ≡ Some feeder ∷ [] }
    ensures refusals { result.0.refusals ≡ refusal_of (Some ending) }
    ensures started { result.0.started ≡ true }
    ensures running { result.1.items ≡ crew.running.items }
{
    let Crew {
        mut end,
        shelf,
        spawner,
        running,
    } = crew;
    if is_refusal(ending) {
        close(ctx.rt, ctx.ends, &mut end, ctx.clock);
    }
    let done = FeedDone {
        end,
        shelf,
        spawner,
        feeders: place.fill(feeder),
        refusals: Refusals::of(ending),
        started: true,
    };
    (done, running)
}
