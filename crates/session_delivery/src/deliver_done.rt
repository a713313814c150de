//! What the deliverer ends with.

use crate::deliver_end::DeliverEnd;
use chan_io::Spawner;
use session_crews::Refusals;
use session_feeds::Session;
use session_run::{Held, Shelf};
use std::snapshot::Snapshot;
use std::thread::Promise;
use turn_lock::Seat;

/// What the deliverer ends with, once the workers of feeders were joined.
#[derive(Drop)]
pub struct DeliverDone<W, S> {
    /// The session, which has its feeders back.
    pub session: S,
    /// Its seat on the lock over the end, with those of the workers that it joined.
    pub end: Seat<Held>,
    /// The same on the lock over the shelf.
    pub shelf: Seat<Shelf>,
    /// What started those workers.
    pub spawner: W,
    /// The refusals of memory and of threads with which it ended, and those of these workers.
    pub refusals: Refusals,
    /// How it ended; none where it was not started.
    pub ended: Option<DeliverEnd>,
}

/// That a deliverer ends as it may with these seats and this session.
#[derive(Drop)]
pub struct FromDeliverer<S> {
    /// Its seat on the lock over the end.
    pub end: Snapshot<Seat<Held>>,
    /// Its seat on the lock over the shelf.
    pub shelf: Snapshot<Seat<Shelf>>,
    /// The session.
    pub session: Snapshot<S>,
}

impl<S> FromDeliverer<S> {
    ghost use Rattle.std.specs.Prelude.{◌≡◌};

    /// The promise of a deliverer that is to have these.
    pub(crate) fn new(end: &Seat<Held>, shelf: &Seat<Shelf>, session: &S) -> FromDeliverer<S>
        ensures end { result.end.value ≡ end.now }
        ensures shelf { result.shelf.value ≡ shelf.now }
        ensures session { result.session.value ≡ session.now }
    {
        FromDeliverer {
            end: Snapshot::of(end),
            shelf: Snapshot::of(shelf),
            session: Snapshot::of(session),
        }
    }
}

impl<W: Spawner, S: Session> Promise<DeliverDone<W, S>> for FromDeliverer<S> {
    ghost use Rattle.session_delivery.specs.Deliveries.{IsDelivery};

    ghost kept_by = { λ p done. IsDelivery S.stands S.out S.begun S.refused W.faults
        p.session.value p.end.value p.shelf.value done };
}
