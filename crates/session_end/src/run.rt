//! A run of one end with its session.

ghost use Rattle.std.specs.Prelude.{◌≡◌, ◌≤◌, ℕ, List, None, [], false};
ghost use Rattle.turn_lock.specs.Receipts.{history_of};
ghost use Rattle.session_end.specs.Closings.{AreEndSeats, AreShelfSeats, IsClosing};
ghost use Rattle.session_end.specs.EndRuns.{IsEndRun, IsRunOrNot};
ghost use Rattle.session_end.specs.Outcomes.{outcome_of};
ghost use Rattle.session_end.specs.Plans.{IsPlan, IsPlanOf};
ghost use Rattle.session_end.specs.declared.setup.Setup.{Setup};

use crate::crew::Crew;
use crate::outcome::{Outcome, outcome_of};
use crate::plan::{Plan, Shared};
use crate::seats::{EndSeats, ShelfSeats};
use crate::settled::{Settled, settle};
use crate::setup::Setup;
use crate::threads::in_threads;
use chan_io::{Clock, Dialer, Entropy, Link, LinkIn, LinkOut, NoMemory, Spawner};
use session_feeds::Session;
use session_run::end_seat::close;
use session_run::{Gate, Held, Shelf};
use std::alloc::Global;
use std::sync::Wait;
use std::thread::Threads;
use turn_lock::Receipt;

/// What a run hands back.
#[derive(Drop)]
pub struct EndRun<D, N, U, S, E, W> {
    /// What it came to.
    pub outcome: Outcome,
    /// The link.
    pub link: Link<D, N, U>,
    /// The session, which has its feeders back.
    pub session: S,
    /// What the base was drawn from.
    pub entropy: E,
    /// What started the workers.
    pub spawner: W,
    /// The history of the end; none where nothing was started.
    pub ends: Option<Receipt<Held>>,
    /// The history of the shelf; none where nothing was started.
    pub shelf: Option<Receipt<Shelf>>,
}

/// Runs one end with its session over its link until all of its workers have ended: dials with the
/// token of the setup, hears what comes, gives the session what is released, puts in what it and
/// its feeders give, and sends what the end emits.
///
/// Where no base can be drawn, or there is no memory for the plan of the run, nothing is started.
pub fn run_end<
    'e,
    R: Threads + Wait + Sync + 'e,
    C: Clock + Sync + 'e,
    G: Gate + 'e,
    D: Dialer + Send + Drop + 'e,
    N: LinkIn + Send + Drop + 'e,
    U: LinkOut + Send + Drop + 'e,
    S: Session + 'e,
    E: Entropy,
    W: Spawner + Send + 'e,
>(
    rt: &'e R,
    alloc: Global,
    setup: Setup,
    link: Link<D, N, U>,
    session: S,
    clock: &'e C,
    mut entropy: E,
    spawner: W,
    gate: &'e G,
) -> EndRun<D, N, U, S, E, W>
where
    S::F: 'e,
    requires low { 1 ≤ setup.window }
    requires high { setup.window ≤ 10000 }
    requires unbegun { S.begun session ≡ false }
    requires none_out { S.out session ≡ [] }
    ensures { IsRunOrNot D.dials D.faults N.arrivals N.faults U.departures U.faults S.stands S.out
        S.refused S.agreed E.draws E.fault_count setup link result.link session result.session
        entropy result.entropy (W.faults spawner) (W.faults result.spawner) result.ends
        result.shelf result.outcome }
{
    let Ok(base) = entropy.draw() else {
        return not_run(Outcome::EntropyFault, link, session, entropy, spawner);
    };
    let Ok(plan) = Plan::new(alloc, setup, base) else {
        return not_run(Outcome::NoMemory, link, session, entropy, spawner);
    };
    let ran = run_plan(rt, alloc, plan, link, session, clock, spawner, gate);
    EndRun {
        outcome: ran.outcome,
        link: ran.link,
        session: ran.session,
        entropy,
        spawner: ran.spawner,
        ends: Some(ran.ends),
        shelf: Some(ran.shelf),
    }
}

/// What a run hands back that started nothing.
fn not_run<D, N, U, S, E, W>(
    outcome: Outcome,
    link: Link<D, N, U>,
    session: S,
    entropy: E,
    spawner: W,
) -> EndRun<D, N, U, S, E, W>
    ensures { result ≡ record {
      outcome = outcome;
      link = link;
      session = session;
      entropy = entropy;
      spawner = spawner;
      ends = None;
      shelf = None;
    } }
{
    EndRun {
        outcome,
        link,
        session,
        entropy,
        spawner,
        ends: None,
        shelf: None,
    }
}

/// What a run hands back whose workers were joined.
#[derive(Drop)]
struct Ran<D, N, U, S, W> {
    outcome: Outcome,
    link: Link<D, N, U>,
    session: S,
    spawner: W,
    ends: Receipt<Held>,
    shelf: Receipt<Shelf>,
}

/// Runs the workers, and closes the end and the locks.
fn run_plan<
    'e,
    R: Threads + Wait + Sync + 'e,
    C: Clock + Sync + 'e,
    G: Gate + 'e,
    D: Dialer + Send + Drop + 'e,
    N: LinkIn + Send + Drop + 'e,
    U: LinkOut + Send + Drop + 'e,
    S: Session + 'e,
    W: Spawner + Send + 'e,
>(
    rt: &'e R,
    alloc: Global,
    plan: Plan,
    link: Link<D, N, U>,
    session: S,
    clock: &'e C,
    spawner: W,
    gate: &'e G,
) -> Ran<D, N, U, S, W>
where
    S::F: 'e,
    requires plan { IsPlan plan }
    requires unbegun { S.begun session ≡ false }
    requires none_out { S.out session ≡ [] }
    ensures { (setup : Setup) (base : List ℕ) → IsPlanOf setup base plan
        → IsEndRun D.dials D.faults N.arrivals N.faults U.departures U.faults S.stands S.out
        S.refused S.agreed setup base link result.link session result.session (W.faults spawner)
        (W.faults result.spawner) (history_of result.ends) (history_of result.shelf)
        result.outcome }
{
    let Plan {
        setting,
        token,
        shared,
        main,
        shelf_main,
    } = plan;
    let seats = EndSeats::split(&shared.ends, main);
    let shelf_seats = ShelfSeats::split(&shared.shelf, shelf_main);
    let (crew, shelf_main) = Crew::new(setting, token, link, session, seats, shelf_seats);
    let joined = in_threads(rt, alloc, &shared, clock, gate, crew, spawner);
    finish(rt, shared, clock, settle(joined, shelf_main))
}

/// Closes the end and the locks.
fn finish<R: Threads + Wait, C: Clock, D, N, U, S, W>(
    rt: &R,
    shared: Shared,
    clock: &C,
    settled: Settled<D, N, U, S, W>,
) -> Ran<D, N, U, S, W>
    requires ends { AreEndSeats shared.ends settled.seats }
    requires shelf { AreShelfSeats shared.shelf settled.shelf_seats }
    ensures closing { IsClosing settled.seats settled.shelf_seats (history_of result.ends)
        (history_of result.shelf) }
    ensures outcome { result.outcome ≡ outcome_of settled.ends }
    ensures link { result.link ≡ settled.link }
    ensures session { result.session ≡ settled.session }
    ensures spawner { result.spawner ≡ settled.spawner }
{
    let mut main = settled.seats.join(&shared.ends);
    let shelf_main = settled.shelf_seats.join(&shared.shelf);
    close(rt, &shared.ends, &mut main, clock);
    let (_held, ends) = shared.ends.close_whole(main);
    let (_left, shelf) = shared.shelf.close_whole(shelf_main);
    Ran {
        outcome: outcome_of(settled.ends),
        link: settled.link,
        session: settled.session,
        spawner: settled.spawner,
        ends,
        shelf,
    }
}
