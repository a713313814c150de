//! The deliverer in a thread of its own.

ghost use Rattle.std.specs.Prelude.{◌≡◌, ◌≤◌, [], false, is_some};
ghost use Rattle.chan_io.specs.Faults.{Merges};
ghost use Rattle.turn_lock.specs.Seats.{IsSeatOf};
ghost use Rattle.session_run.specs.Adds.{AddsCalls};
ghost use Rattle.session_end.specs.Ran.{DelivererRan};
ghost use Rattle.session_end.specs.Starts.{closing_unless};

use crate::starts::close_unless;
use chan_io::{Clock, Spawner};
use session_crews::{Refusals, RunContext};
use session_delivery::{DeliverDone, DeliverEnd, DeliverStart, start_deliverer};
use session_feeds::Session;
use session_run::{Gate, Held, Shelf};
use std::sync::Wait;
use std::thread::Threads;
use turn_lock::Seat;

/// A session with the seats of its deliverer.
#[derive(Drop)]
pub(crate) struct Service<S> {
    /// The session.
    pub session: S,
    /// The seat on the lock over the end.
    pub end: Seat<Held>,
    /// The seat on the lock over the shelf.
    pub shelf: Seat<Shelf>,
}

/// What is there once the deliverer was joined.
#[derive(Drop)]
pub(crate) struct AfterDeliverer<S, W> {
    /// The session, with the seats of the deliverer and of the workers of feeders.
    pub service: Service<S>,
    /// The refusals of memory, of feeders and of threads with which these ended.
    pub refusals: Refusals,
    /// How the deliverer ended; none where it was not started, or did nothing.
    pub ended: Option<DeliverEnd>,
    /// Whether it was started.
    pub started: bool,
    /// The seat that closes the end where a worker can't be started.
    pub main: Seat<Held>,
    /// What started the workers.
    pub spawner: W,
}

/// Starts the deliverer, and joins it.
pub(crate) fn run_deliverer<
    's,
    'e,
    R: Threads + Wait + Sync + 's,
    C: Clock + Sync + 's,
    G: Gate + 's,
    S: Session + 's,
    W: Spawner + Send + 's,
>(
    ctx: &RunContext<'s, 'e, R, C, G>,
    mut main: Seat<Held>,
    mut spawner: W,
    service: Service<S>,
) -> AfterDeliverer<S, W>
where
    S::F: 's,
    requires main { IsSeatOf ctx.now.ends.now main }
    requires end { IsSeatOf ctx.now.ends.now service.end }
    requires shelf { IsSeatOf ctx.now.shelf.now service.shelf }
    requires unbegun { S.begun service.session ≡ false }
    requires none_out { S.out service.session ≡ [] }
    ensures ran { DelivererRan S.stands S.out S.begun S.refused service result
        (W.faults spawner) (W.faults result.spawner) }
    ensures calls { AddsCalls main (closing_unless (is_some result.ended)) result.main }
    ensures counted { W.faults spawner ≤ W.faults result.spawner }
{
    let start = DeliverStart {
        ctx: ctx.again(),
        depth: u64::MAX,
        end: service.end,
        shelf: service.shelf,
        spawner: spawner.twin(),
        session: service.session,
    };
    match start_deliverer(start, &mut spawner) {
        Ok(call) => {
            let done = call.join(ctx.rt);
            close_unless(ctx, &mut main, done.ended.is_some());
            after_deliverer(done, true, main, spawner)
        }
        Err(done) => {
            close_unless(ctx, &mut main, false);
            after_deliverer(done, false, main, spawner)
        }
    }
}

/// What is there of a deliverer that ended so, with its spawner taken back.
fn after_deliverer<S: Session, W: Spawner>(
    done: DeliverDone<W, S>,
    started: bool,
    main: Seat<Held>,
    mut spawner: W,
) -> AfterDeliverer<S, W>
    ensures service { result.service ≡ record {
      session = done.session;
      end = done.end;
      shelf = done.shelf;
    } }
    ensures refusals { result.refusals ≡ done.refusals }
    ensures ended { result.ended ≡ done.ended }
    ensures started { result.started ≡ started }
    ensures main { result.main ≡ main }
    ensures merges { Merges (W.faults spawner) (W.faults done.spawner) (W.faults result.spawner) }
    ensures counted { W.faults spawner ≤ W.faults result.spawner }
{
    let DeliverDone {
        session,
        end,
        shelf,
        spawner: twin,
        refusals,
        ended,
    } = done;
    spawner.merge(twin);
    AfterDeliverer {
        service: Service {
            session,
            end,
            shelf,
        },
        refusals,
        ended,
        started,
        main,
        spawner,
    }
}
