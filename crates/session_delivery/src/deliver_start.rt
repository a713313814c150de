//! A deliverer that is to be started.

ghost use Rattle.turn_lock.specs.Seats.{IsSeatOf};

use session_crews::RunContext;
use session_run::{Held, Shelf};
use turn_lock::Seat;

/// All that a deliverer needs. It goes to the deliverer's thread.
#[derive(Drop)]
pub struct DeliverStart<'s, 'e, R, C, G, W, S> {
    /// What it shares with the other workers.
    pub ctx: RunContext<'s, 'e, R, C, G>,
    /// How deep workers may stand below it.
    pub depth: u64,
    /// Its seat on the lock over the end.
    pub end: Seat<Held>,
    /// Its seat on the lock over the shelf.
    pub shelf: Seat<Shelf>,
    /// What starts the workers of feeders.
    pub spawner: W,
    /// The session, which was not begun.
    pub session: S,
    ghost end_lock: { IsSeatOf ctx.ends.now end },
    ghost shelf_lock: { IsSeatOf ctx.shelf.now shelf },
}
