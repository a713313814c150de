//! What a feeder's worker ends with.

use crate::feed_end::Refusals;
use crate::feeders::Feeders;
use chan_io::Spawner;
use session_feeds::Feeder;
use session_run::{Held, Shelf};
use std::snapshot::Snapshot;
use std::thread::Promise;
use turn_lock::Seat;

/// What a feeder's worker ends with.
#[derive(Drop)]
pub struct FeedDone<W, F> {
    /// Its seat on the lock over the end, with those of the workers that it joined.
    pub end: Seat<Held>,
    /// The same on the lock over the shelf.
    pub shelf: Seat<Shelf>,
    /// What started those workers.
    pub spawner: W,
    /// Its feeder, and those of these workers, each after the one that gave it.
    pub feeders: Feeders<F>,
    /// The refusals with which it and these workers ended.
    pub refusals: Refusals,
    /// Whether it was started.
    pub started: bool,
}

/// That a feeder's worker ends as it may with these seats and this feeder.
#[derive(Drop)]
pub struct FromFeeder<F> {
    /// Its seat on the lock over the end.
    pub end: Snapshot<Seat<Held>>,
    /// Its seat on the lock over the shelf.
    pub shelf: Snapshot<Seat<Shelf>>,
    /// Its feeder.
    pub feeder: Snapshot<F>,
}

impl<F> FromFeeder<F> {
    ghost use Rattle.std.specs.Prelude.{◌≡◌};

    /// The promise of a worker that is to have these.
    pub(crate) fn new(end: &Seat<Held>, shelf: &Seat<Shelf>, feeder: &F) -> FromFeeder<F>
        ensures end { result.end.value ≡ end.now }
        ensures shelf { result.shelf.value ≡ shelf.now }
        ensures feeder { result.feeder.value ≡ feeder.now }
    {
        FromFeeder {
            end: Snapshot::of(end),
            shelf: Snapshot::of(shelf),
            feeder: Snapshot::of(feeder),
        }
    }
}

impl<W: Spawner, F: Feeder> Promise<FeedDone<W, F>> for FromFeeder<F> {
    ghost use Rattle.std.specs.Prelude.{[]};
    ghost use Rattle.session_crews.specs.Crews.{Fed};

    ghost kept_by = { λ p done.
        Fed F.told W.faults p.end.value p.shelf.value p.feeder.value [] done };
}
