//! One step of a feeder's worker.

ghost use Rattle.std.specs.Prelude.{◌≡◌, None};
ghost use Rattle.turn_lock.specs.Seats.{IsSeatOf};
ghost use Rattle.session_crews.specs.FeedRuns.{Steps};

use crate::feed_end::{FeedEnd, end_of_put};
use crate::run_context::RunContext;
use chan_io::Clock;
use session_feeds::{Fed, Feeder, Ids, REST_MILLIS, put_item};
use session_run::end_seat::look;
use session_run::shelf_seat::{add, note_finish};
use session_run::{Held, Parcel, Shelf};
use std::sync::Wait;
use turn_lock::Seat;

/// What became of a step.
#[derive(Drop)]
pub enum Step<F> {
    /// The turn was made, and another follows.
    Goes,
    /// The feeder gave another one.
    Another(F),
    /// The last turn was made.
    Ends(FeedEnd),
}

/// Asks the feeder for the next, and does what it asks for, but for the start of a worker.
pub(crate) fn feed_step<R: Wait, C: Clock, G, F: Feeder>(
    ctx: &RunContext<'_, '_, R, C, G>,
    end: &mut Seat<Held>,
    shelf: &mut Seat<Shelf>,
    ids: &mut Ids,
    feeder: &mut F,
) -> Step<F>
    requires lock { IsSeatOf ctx.now.ends.now end.old }
    requires shelf_lock { IsSeatOf ctx.now.shelf.now shelf.old }
    requires on { (F.told feeder.old).came ≡ None }
    ensures { Steps F.told end.old end.new shelf.old shelf.new feeder.old feeder.new result }
{
    match feeder.next() {
        Fed::Piece(item) => {
            let put = put_item(ctx.rt, ctx.ends, end, ctx.clock, ids, item, false);
            match end_of_put(&put) {
                Some(ending) => Step::Ends(ending),
                None => Step::Goes,
            }
        }
        Fed::Another(other) => Step::Another(other),
        Fed::Quiet => {
            let seen = look(ctx.rt, ctx.ends, end);
            if seen.closed {
                return Step::Ends(FeedEnd::Stopped);
            }
            ctx.clock.rest(REST_MILLIS);
            Step::Goes
        }
        Fed::Over => {
            if add(ctx.rt, ctx.shelf, shelf, ctx.clock, Parcel::Over) {
                return Step::Ends(FeedEnd::Over);
            }
            Step::Ends(FeedEnd::NoMemory)
        }
        Fed::Failed => {
            note_finish(ctx.rt, ctx.shelf, shelf, ctx.clock, true);
            Step::Ends(FeedEnd::Failed)
        }
        Fed::NoMemory => Step::Ends(FeedEnd::NoMemory),
    }
}
