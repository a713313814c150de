//! A feeder's worker that is to be started.

ghost use Rattle.std.specs.Prelude.{◌≡◌, [], false};
ghost use Rattle.turn_lock.specs.Seats.{IsSeatOf};

use crate::feed_done::FeedDone;
use crate::feed_end::Refusals;
use crate::feeders::Place;
use crate::run_context::RunContext;
use chan_io::Spawner;
use session_feeds::Feeder;
use session_run::{Held, Shelf};
use turn_lock::Seat;

/// All that a feeder's worker needs. It goes to the worker's thread.
#[derive(Drop)]
pub struct FeedStart<'s, 'e, R, C, G, W, F> {
    /// What it shares with the other workers.
    pub ctx: RunContext<'s, 'e, R, C, G>,
    /// How deep further workers may stand below it.
    pub depth: u64,
    /// Its seat on the lock over the end.
    pub end: Seat<Held>,
    /// Its seat on the lock over the shelf.
    pub shelf: Seat<Shelf>,
    /// What starts further workers.
    pub spawner: W,
    /// Its feeder.
    pub feeder: F,
    /// The place in which the feeder is handed on.
    pub place: Place<F>,
    ghost end_lock: { IsSeatOf ctx.ends.now end },
    ghost shelf_lock: { IsSeatOf ctx.shelf.now shelf },
}

impl<'s, 'e, R, C, G, W: Spawner, F: Feeder> FeedStart<'s, 'e, R, C, G, W, F> {
    ghost use Rattle.session_crews.specs.Crews.{Fed};
    ghost use Rattle.session_feeds.specs.Marks.{IsNew};

    /// What the worker ends with where it is not started.
    pub(crate) fn not_started(self) -> FeedDone<W, F>
        requires { IsNew (F.told self.feeder) }
        ensures fed { Fed F.told W.faults self.entry.end self.entry.shelf self.entry.feeder []
            result }
        ensures started { result.started ≡ false }
    {
        let FeedStart {
            ctx: _,
            depth: _,
            end,
            shelf,
            spawner,
            feeder,
            place,
        } = self;
        FeedDone {
            end,
            shelf,
            spawner,
            feeders: place.fill(feeder),
            refusals: Refusals::NONE,
            started: false,
        }
    }
}
