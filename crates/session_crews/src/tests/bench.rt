//! What runs the workers of feeders in memory, over an end and a shelf.

ghost use Rattle.std.specs.Thread.{IsSync};
ghost use Rattle.turn_lock.specs.Seats.{IsSeatOf};
ghost use Rattle.session_crews.specs.Fresh.{IsFresh};

use crate::feed_work::run_started;
use crate::{CountingFeeder, FeedDone, FeedStart, Place, RunContext};
use chan_io::{Spawner, StillClock};
use channel_core::{Outgoing, Pull};
use session_run::end_seat::pull;
use session_run::{Held, OpenGate, Shelf};
use std::alloc::Global;
use std::sync::Wait;
use std::sync::atomic::AtomicU32;
use std::thread;
use std::thread::{Scope, Threads};
use turn_lock::{Seat, TurnLock};

/// What the workers of a case share.
#[derive(Drop)]
pub(crate) struct Bench {
    pub(crate) ends: TurnLock<Held>,
    pub(crate) shelf: TurnLock<Shelf>,
    pub(crate) numbers: AtomicU32,
    pub(crate) clock: StillClock,
    pub(crate) gate: OpenGate,
}

/// Runs the worker of a feeder in this scope, with those that it starts.
fn run_in<'s, 'e, R: Threads + Wait + Sync + 's, W: Spawner + Send + 's>(
    rt: &'s R,
    scope: &'s Scope<'s, &'e ()>,
    alloc: Global,
    bench: &'s Bench,
    end: Seat<Held>,
    shelf: Seat<Shelf>,
    spawner: W,
    depth: u64,
    feeder: CountingFeeder,
    place: Place<CountingFeeder>,
) -> FeedDone<W, CountingFeeder>
    requires lock { IsSeatOf bench.now.ends end }
    requires shelf_lock { IsSeatOf bench.now.shelf shelf }
    requires fresh { IsFresh feeder }
    ensures lock { IsSeatOf bench.now.ends result.end }
    ensures shelf_lock { IsSeatOf bench.now.shelf result.shelf }
{
    let ctx = RunContext {
        rt,
        scope,
        alloc,
        ends: &bench.ends,
        shelf: &bench.shelf,
        clock: &bench.clock,
        gate: &bench.gate,
        numbers: &bench.numbers,
        base: [7; 16],
    };
    let start = FeedStart {
        ctx,
        depth,
        end,
        shelf,
        spawner,
        feeder,
        place,
    };
    run_started(start, true)
}

/// The same in a scope of its own.
pub(crate) fn run<'e, R: Threads + Wait + Sync + 'e, W: Spawner + Send + 'e>(
    rt: &'e R,
    alloc: Global,
    bench: &'e Bench,
    end: Seat<Held>,
    shelf: Seat<Shelf>,
    spawner: W,
    depth: u64,
    feeder: CountingFeeder,
    place: Place<CountingFeeder>,
) -> FeedDone<W, CountingFeeder>
    requires lock { IsSeatOf bench.now.ends end }
    requires shelf_lock { IsSeatOf bench.now.shelf shelf }
    requires fresh { IsFresh feeder }
    ensures lock { IsSeatOf bench.now.ends result.end }
    ensures shelf_lock { IsSeatOf bench.now.shelf result.shelf }
{
    thread::scope(
        thread::scope_env::<'e>(),
        rt,
        move |scope| -> FeedDone<W, CountingFeeder>
            requires lock { IsSeatOf bench.now.ends end }
            requires shelf_lock { IsSeatOf bench.now.shelf shelf }
            requires fresh { IsFresh feeder }
            requires sync { IsSync R.row }
            ensures lock { IsSeatOf bench.entry.now.ends result.end }
            ensures shelf_lock { IsSeatOf bench.entry.now.shelf result.shelf }
        {
            run_in(
                rt, scope, alloc, bench, end, shelf, spawner, depth, feeder, place,
            )
        },
    )
}

/// The id of the next message that goes out.
pub(crate) fn next_id<R: Wait>(rt: &R, bench: &Bench, end: &mut Seat<Held>) -> Option<[u8; 16]>
    requires { IsSeatOf bench.now.ends end.old }
    ensures { IsSeatOf bench.now.ends end.new }
{
    match pull(rt, &bench.ends, end, 2) {
        Pull::Emit(Outgoing::Stream(sent)) => Some(sent.id),
        _ => None,
    }
}
