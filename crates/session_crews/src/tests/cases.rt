//! What workers of feeders come to.

ghost use Rattle.std.specs.Prelude.{IfOk};
ghost use Rattle.turn_lock.specs.Seats.{IsSeatOf};
ghost use Rattle.session_crews.specs.Fresh.{IsFresh};

use super::bench::{Bench, next_id, run};
use crate::{CountingFeeder, FeedDone, Place, Refusals};
use chan_io::{FaultySpawner, StillClock};
use chan_values::{NoMemory, Side};
use session_run::end_seat::{close, look, opened};
use session_run::shelf_seat::count;
use session_run::{Held, OpenGate, Shelf};
use std::alloc::Global;
use std::sync::Wait;
use std::sync::atomic::AtomicU32;
use std::test::Fail;
use std::thread::Threads;
use turn_lock::{Seat, TurnLock};

/// A feeder, what starts the workers for those that it gives, and what comes of them.
#[derive(Clone, Copy)]
struct Case {
    what: &'static str,
    /// How often the feeder is quiet, how many pieces it gives, how many feeders come below it.
    quiet: u64,
    pieces: u64,
    below: u64,
    /// Whether it fails at last.
    fails: bool,
    /// How deep workers may stand below it.
    depth: u64,
    /// The starts that fail.
    unstarted: &'static [u64],
    /// Whether the end is closed before.
    closed: bool,
    seen: Seen,
}

/// What can be seen once all workers were joined.
#[derive(Clone, Copy, Debug, PartialEq, Eq)]
struct Seen {
    refusals: Refusals,
    /// The marks of the feeders that came back, each a digit.
    marks: u64,
    /// How many messages were put in, and whether the end is closed.
    next: u64,
    closed: bool,
    /// How many parcels wait, and whether a fault was noted.
    parcels: u64,
    fault: bool,
}

/// The feeder of a case, with the mark 1.
fn feeder_of(alloc: Global, case: &Case) -> CountingFeeder
    ensures { IsFresh result }
{
    let mut feeder = CountingFeeder::new(alloc, 1, case.pieces);
    feeder.quiet = case.quiet;
    feeder.below = case.below;
    feeder.fails = case.fails;
    feeder
}

/// What the worker of a case ends with.
fn ended<R: Threads + Wait + Sync>(
    rt: &R,
    alloc: Global,
    bench: &Bench,
    end: Seat<Held>,
    shelf: Seat<Shelf>,
    case: &Case,
) -> Result<FeedDone<FaultySpawner, CountingFeeder>, NoMemory>
    requires lock { IsSeatOf bench.now.ends end }
    requires shelf_lock { IsSeatOf bench.now.shelf shelf }
    ensures lock { IfOk result (λ done. IsSeatOf bench.now.ends done.end) }
    ensures shelf_lock { IfOk result (λ done. IsSeatOf bench.now.shelf done.shelf) }
{
    let spawner = FaultySpawner::new(alloc, Vec::from_slice(alloc, case.unstarted)?);
    let place = Place::new(alloc)?;
    let feeder = feeder_of(alloc, case);
    Ok(run(
        rt, alloc, bench, end, shelf, spawner, case.depth, feeder, place,
    ))
}

/// What is seen of a case.
fn seen_of<R: Threads + Wait + Sync>(rt: &R, alloc: Global, case: &Case) -> Result<Seen, NoMemory> {
    let (ends, mut end) = TurnLock::new(alloc, Held::new(alloc, Side::Agent, 10)?)?;
    let (shelf, shelf_seat) = TurnLock::new(alloc, Shelf::new(alloc))?;
    if case.closed {
        close(rt, &ends, &mut end, &StillClock);
    }
    let bench = Bench {
        ends,
        shelf,
        numbers: AtomicU32::new(4),
        clock: StillClock,
        gate: OpenGate,
    };
    let mut done = ended(rt, alloc, &bench, end, shelf_seat, case)?;
    let end = look(rt, &bench.ends, &mut done.end);
    let shelf = count(rt, &bench.shelf, &mut done.shelf);
    let mut marks: u64 = 0;
    for _ in 0..5u8 {
        if let Some(feeder) = done.feeders.take_first(rt) {
            marks = marks.saturating_mul(10).saturating_add(feeder.mark);
        }
    }
    Ok(Seen {
        refusals: done.refusals,
        marks,
        next: end.next,
        closed: end.closed,
        parcels: shelf.parcels,
        fault: shelf.fault,
    })
}

/// A feeder that gives three pieces, alone, and all that is wanted is there.
const PLAIN: Case = Case {
    what: "three pieces",
    quiet: 0,
    pieces: 3,
    below: 0,
    fails: false,
    depth: 5,
    unstarted: &[],
    closed: false,
    seen: Seen {
        refusals: Refusals::NONE,
        marks: 1,
        next: 3,
        closed: false,
        parcels: 1,
        fault: false,
    },
};

#[test]
fn workers_come_to_what_their_feeders_give(rt: HostRuntime) -> Result<(), Fail> {
    let mut cases = Vec::new(rt.alloc());
    cases.push(PLAIN)?;
    let mut case = PLAIN;
    case.what = "quiet at first";
    case.quiet = 2;
    cases.push(case)?;
    let mut case = PLAIN;
    case.what = "two feeders below";
    case.below = 2;
    case.seen.marks = 123;
    case.seen.next = 9;
    case.seen.parcels = 3;
    cases.push(case)?;
    for case in cases {
        let seen = seen_of(&rt, rt.alloc(), &case)?;
        assert_eq!(rt; seen, case.seen, "{}", case.what);
    }
    Ok(())
}

#[test]
fn a_refusal_closes_the_end(rt: HostRuntime) -> Result<(), Fail> {
    let mut cases = Vec::new(rt.alloc());
    let mut base = PLAIN;
    base.seen.closed = true;
    base.seen.parcels = 0;
    let mut case = base;
    case.what = "it fails behind three pieces";
    case.fails = true;
    case.seen.refusals.failed = true;
    case.seen.fault = true;
    cases.push(case)?;
    case.what = "the one below fails, and it is stopped";
    case.below = 1;
    case.seen.marks = 12;
    cases.push(case)?;
    let mut case = base;
    case.what = "no thread for the one below";
    case.below = 1;
    case.unstarted = &[0];
    case.seen.refusals.no_thread = true;
    case.seen.marks = 12;
    case.seen.next = 0;
    cases.push(case)?;
    let mut case = base;
    case.what = "no depth for the one below";
    case.below = 1;
    case.depth = 0;
    case.seen.refusals.no_memory = true;
    case.seen.marks = 12;
    case.seen.next = 0;
    cases.push(case)?;
    let mut case = base;
    case.what = "the end is closed before";
    case.closed = true;
    case.seen.next = 0;
    cases.push(case)?;
    for case in cases {
        let seen = seen_of(&rt, rt.alloc(), &case)?;
        assert_eq!(rt; seen, case.seen, "{}", case.what);
    }
    Ok(())
}

#[test]
fn ids_name_the_worker_that_put(rt: HostRuntime) -> Result<(), Fail> {
    let alloc = rt.alloc();
    let (ends, mut end) = TurnLock::new(alloc, Held::new(alloc, Side::Agent, 10)?)?;
    opened(&rt, &ends, &mut end, &StillClock, 1);
    let (shelf, shelf_seat) = TurnLock::new(alloc, Shelf::new(alloc))?;
    let bench = Bench {
        ends,
        shelf,
        numbers: AtomicU32::new(4),
        clock: StillClock,
        gate: OpenGate,
    };
    let mut case = PLAIN;
    case.below = 1;
    case.pieces = 1;
    let mut done = ended(&rt, alloc, &bench, end, shelf_seat, &case)?;
    // The one below was started by the first, and put its piece at once.
    let below = next_id(&rt, &bench, &mut done.end);
    let first = next_id(&rt, &bench, &mut done.end);
    let expected = Some([7, 7, 7, 7, 7, 7, 7, 7, 0, 0, 5, 0, 0, 0, 0, 0]);
    assert!(rt; below == expected, "worker 5");
    let expected = Some([7, 7, 7, 7, 7, 7, 7, 7, 0, 0, 4, 0, 0, 0, 0, 0]);
    assert!(rt; first == expected, "worker 4");
    Ok(())
}
