//! The starts of the workers of several feeders.

ghost use Rattle.std.specs.Prelude.{All};
ghost use Rattle.turn_lock.specs.Seats.{IsSeatOf};
ghost use Rattle.session_feeds.specs.Marks.{IsNew};
ghost use Rattle.session_delivery.specs.Answers.{StartsAll};
ghost use Rattle.session_delivery.specs.Starts.{Starts};

use crate::delivered::Delivered;
use chan_io::{Clock, Spawner};
use session_crews::{Crew, RunContext, make_room, start_in_crew};
use session_feeds::Feeder;
use session_run::Gate;
use std::sync::Wait;
use std::thread::Threads;

/// Starts a worker for each of the feeders, in order, up to the first that can't be started.
pub(crate) fn start_all<
    's,
    'e,
    R: Threads + Wait + Sync + 's,
    C: Clock + Sync + 's,
    G: Gate + 's,
    W: Spawner + Send + 's,
    F: Feeder + Send + 's,
>(
    ctx: &RunContext<'s, 'e, R, C, G>,
    depth: u64,
    crew: &mut Crew<W, F>,
    mut feeders: Vec<F>,
) -> Delivered<W, F>
    requires lock { IsSeatOf ctx.now.ends.now crew.old.end }
    requires shelf_lock { IsSeatOf ctx.now.shelf.now crew.old.shelf }
    requires fresh { All (λ f. IsNew (F.told f)) feeders.items }
    ensures { (starts : Starts) × StartsAll F.told W.faults ctx.now.ends.now ctx.now.shelf.now
        feeders.items crew.old starts crew.new result }
{
    while !feeders.is_empty() {
        let Some(place) = make_room(ctx.alloc, &mut crew.running) else {
            return Delivered::NoRoom(feeders);
        };
        let feeder = feeders.remove(0);
        match start_in_crew(ctx, depth, crew, place, feeder) {
            Ok(()) => {}
            Err((back, starved)) => return Delivered::Refused(back, starved, feeders),
        }
    }
    Delivered::On
}
