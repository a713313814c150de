//! A deliverer that serves a session in memory, and what is there once it has ended.

ghost use Rattle.std.specs.Prelude.{◌≡◌, None, false};
ghost use Rattle.std.specs.Thread.{IsSync};
ghost use Rattle.turn_lock.specs.Seats.{IsSeatOf};

use super::keeping_session::KeepingSession;
use crate::{DeliverDone, DeliverStart, start_deliverer};
use chan_io::{FaultySpawner, StillClock};
use chan_values::Side;
use channel_core::Look;
use session_crews::RunContext;
use session_run::{Count, Held, OpenGate, Parcel, Shelf, end_seat, shelf_seat};
use std::alloc::Global;
use std::sync::Wait;
use std::sync::atomic::AtomicU32;
use std::test::Fail;
use std::thread;
use std::thread::{Scope, Threads};
use turn_lock::{Seat, TurnLock};

/// What ids begin with.
const BASE: [u8; 16] = [0, 1, 2, 3, 4, 5, 6, 7, 8, 9, 10, 11, 12, 13, 14, 15];

/// What a deliverer meets.
#[derive(Drop)]
pub(crate) struct Met {
    /// The parcels that wait on the shelf.
    pub(crate) parcels: Vec<Parcel>,
    /// Whether the end is closed before.
    pub(crate) closed: bool,
    /// How deep workers may stand below it.
    pub(crate) depth: u64,
    /// What starts the workers of feeders.
    pub(crate) spawner: FaultySpawner,
    /// What starts the deliverer.
    pub(crate) starter: FaultySpawner,
}

/// What is there once it has ended.
#[derive(Drop)]
pub(crate) struct Served {
    /// What it ended with.
    pub(crate) done: DeliverDone<FaultySpawner, KeepingSession>,
    /// A look at the end.
    pub(crate) look: Look,
    /// A count of the shelf.
    pub(crate) count: Count,
}

/// What the workers share.
#[derive(Drop)]
struct Bench {
    ends: TurnLock<Held>,
    shelf: TurnLock<Shelf>,
    numbers: AtomicU32,
    clock: StillClock,
    gate: OpenGate,
}

/// Starts a deliverer for the session, and joins it.
pub(crate) fn serve<R: Threads + Wait + Sync>(
    rt: &R,
    alloc: Global,
    session: KeepingSession,
    met: Met,
) -> Result<Served, Fail>
    requires new { session.begun ≡ false }
    requires none_out { session.out ≡ None }
{
    let (ends, mut end) = TurnLock::new(alloc, Held::new(alloc, Side::Plugin, 10)?)?;
    let (shelf, mut inbox) = TurnLock::new(alloc, Shelf::new(alloc))?;
    let Met {
        parcels,
        closed,
        depth,
        spawner,
        starter,
    } = met;
    for parcel in parcels {
        shelf_seat::add(rt, &shelf, &mut inbox, &StillClock, parcel);
    }
    if closed {
        end_seat::close(rt, &ends, &mut end, &StillClock);
    }
    let its_end = ends.split(&mut end)?;
    let its_inbox = shelf.split(&mut inbox)?;
    let bench = Bench {
        ends,
        shelf,
        numbers: AtomicU32::new(4),
        clock: StillClock,
        gate: OpenGate,
    };
    let done = in_a_scope(
        rt, alloc, &bench, its_end, its_inbox, depth, spawner, starter, session,
    );
    Ok(Served {
        done,
        look: end_seat::look(rt, &bench.ends, &mut end),
        count: shelf_seat::count(rt, &bench.shelf, &mut inbox),
    })
}

/// Runs it in a scope of its own.
fn in_a_scope<'e, R: Threads + Wait + Sync + 'e>(
    rt: &'e R,
    alloc: Global,
    bench: &'e Bench,
    end: Seat<Held>,
    shelf: Seat<Shelf>,
    depth: u64,
    spawner: FaultySpawner,
    starter: FaultySpawner,
    session: KeepingSession,
) -> DeliverDone<FaultySpawner, KeepingSession>
    requires lock { IsSeatOf bench.now.ends end }
    requires shelf_lock { IsSeatOf bench.now.shelf shelf }
    requires new { session.begun ≡ false }
    requires none_out { session.out ≡ None }
{
    thread::scope(
        thread::scope_env::<'e>(),
        rt,
        move |scope| -> DeliverDone<FaultySpawner, KeepingSession>
            requires lock { IsSeatOf bench.now.ends end }
            requires shelf_lock { IsSeatOf bench.now.shelf shelf }
            requires new { session.begun ≡ false }
            requires none_out { session.out ≡ None }
            requires sync { IsSync R.row }
        {
            run_in(
                rt, scope, alloc, bench, end, shelf, depth, spawner, starter, session,
            )
        },
    )
}

/// Starts it in this scope, and joins it.
fn run_in<'s, 'e, R: Threads + Wait + Sync + 's>(
    rt: &'s R,
    scope: &'s Scope<'s, &'e ()>,
    alloc: Global,
    bench: &'s Bench,
    end: Seat<Held>,
    shelf: Seat<Shelf>,
    depth: u64,
    spawner: FaultySpawner,
    mut starter: FaultySpawner,
    session: KeepingSession,
) -> DeliverDone<FaultySpawner, KeepingSession>
    requires lock { IsSeatOf bench.now.ends end }
    requires shelf_lock { IsSeatOf bench.now.shelf shelf }
    requires new { session.begun ≡ false }
    requires none_out { session.out ≡ None }
{
    let ctx = RunContext {
        rt,
        scope,
        alloc,
        ends: &bench.ends,
        shelf: &bench.shelf,
        clock: &bench.clock,
        gate: &bench.gate,
        numbers: &bench.numbers,
        base: BASE,
    };
    let start = DeliverStart {
        ctx,
        depth,
        end,
        shelf,
        spawner,
        session,
    };
    match start_deliverer(start, &mut starter) {
        Ok(call) => call.join(rt),
        Err(done) => done,
    }
}
