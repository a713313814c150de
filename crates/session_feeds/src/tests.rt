//! Ids against written bytes, and puts into an end in memory.

ghost use Rattle.std.specs.Prelude.{◌≡◌, [], IfOk};
ghost use Rattle.turn_lock.specs.Seats.{IsSeatOf, SameLock};
ghost use Rattle.session_feeds.specs.Sessions.{AllSmall};

use crate::{Ids, put_all, put_item};
use chan_io::{Clock, StillClock};
use chan_values::{Bytes, Item, NoMemory, Side};
use channel_core::{Incoming, Outgoing, Pull, Put};
use session_run::Held;
use session_run::end_seat::{close, heard, look, opened, pull};
use std::alloc::Global;
use std::sync::Wait;
use std::sync::atomic::{AtomicU64, Ordering};
use std::test::Fail;
use std::thread::{Threads, join};
use turn_lock::{Seat, TurnLock};

#[test]
fn an_id_has_the_base_the_worker_and_the_count(rt: HostRuntime) {
    let base = [
        0xa0, 0xa1, 0xa2, 0xa3, 0xa4, 0xa5, 0xa6, 0xa7, 0xa8, 0xa9, 0xaa, 0xab, 0xac, 0xad, 0xae,
        0xaf,
    ];
    let cases: [(u32, u64, [u8; 8]); 4] = [
        (1, 0, [0, 0, 1, 0, 0, 0, 0, 0]),
        (
            0x12_3456,
            0x9a_bcde_f012,
            [0x12, 0x34, 0x56, 0x9a, 0xbc, 0xde, 0xf0, 0x12],
        ),
        // Of the worker's number 24 bits are used, and of the count 40.
        (0x0700_0002, 0x5_0000_0000_03, [0, 0, 2, 0, 0, 0, 0, 3]),
        (2, u64::MAX, [0, 0, 2, 255, 255, 255, 255, 255]),
    ];
    for (worker, count, low) in cases {
        let mut ids = Ids {
            base,
            worker,
            count,
        };
        let expected = [
            0xa0, 0xa1, 0xa2, 0xa3, 0xa4, 0xa5, 0xa6, 0xa7, low[0], low[1], low[2], low[3], low[4],
            low[5], low[6], low[7],
        ];
        assert!(rt; ids.next() == expected, "worker {worker}, count {count}");
        assert_eq!(rt; ids.count, count.wrapping_add(1), "after count {count}");
    }
}

/// An item without payload.
fn item_of(alloc: Global, ptype: u32) -> Item
    ensures { result.payload ≡ [] }
{
    Item {
        ptype,
        payload: Bytes::new(Vec::new(alloc)),
    }
}

/// Items of the types 1, 2 and 3.
fn three(alloc: Global) -> Result<Vec<Item>, NoMemory>
    ensures { IfOk result (λ items. AllSmall items.items) }
{
    let mut items = Vec::new(alloc);
    items.push(item_of(alloc, 1))?;
    items.push(item_of(alloc, 2))?;
    items.push(item_of(alloc, 3))?;
    Ok(items)
}

/// Puts in these three, and answers whether one was stopped.
fn put_three<R: Wait, C: Clock>(
    rt: &R,
    alloc: Global,
    ends: &TurnLock<Held>,
    seat: &mut Seat<Held>,
    clock: &C,
    last: bool,
) -> Result<bool, NoMemory>
    requires { IsSeatOf ends.now seat.old }
    ensures { IsSeatOf ends.now seat.new }
{
    let mut ids = Ids::new([7; 16], 4);
    let items = three(alloc)?;
    Ok(put_all(rt, ends, seat, clock, &mut ids, items, last))
}

/// What an end is before the three are put in.
#[derive(Clone, Copy)]
enum Before {
    Open,
    Finished,
    Closed,
}

/// Whether one of the three was stopped, how many messages were put in, and whether one as the last.
fn come_to<R: Wait>(
    rt: &R,
    alloc: Global,
    before: Before,
    last: bool,
) -> Result<(bool, u64, bool), NoMemory> {
    let (ends, mut seat) = TurnLock::new(alloc, Held::new(alloc, Side::Agent, 10)?)?;
    match before {
        Before::Open => {}
        Before::Finished => {
            put_three(rt, alloc, &ends, &mut seat, &StillClock, true)?;
        }
        Before::Closed => close(rt, &ends, &mut seat, &StillClock),
    }
    let stopped = put_three(rt, alloc, &ends, &mut seat, &StillClock, last)?;
    let end = look(rt, &ends, &mut seat);
    Ok((stopped, end.next, end.finished))
}

#[test]
fn items_are_put_in_until_one_is_stopped(rt: HostRuntime) -> Result<(), Fail> {
    let cases = [
        ("an open end", Before::Open, false, (false, 3, false)),
        ("the last as the last", Before::Open, true, (false, 3, true)),
        ("behind the last", Before::Finished, false, (true, 3, true)),
        ("a closed end", Before::Closed, false, (true, 0, false)),
    ];
    for (what, before, last, expected) in cases {
        let came = come_to(&rt, rt.alloc(), before, last)?;
        assert!(rt; came == expected, "{what}");
    }
    Ok(())
}

#[test]
fn an_item_without_a_number_comes_back(rt: HostRuntime) -> Result<(), Fail> {
    let alloc = rt.alloc();
    let (ends, mut seat) = TurnLock::new(alloc, Held::new(alloc, Side::Agent, 10)?)?;
    let mut ids = Ids::new([7; 16], 4);
    let item = item_of(alloc, 1);
    let put = put_item(&rt, &ends, &mut seat, &StillClock, &mut ids, item, true);
    assert!(rt; matches!(put, Put::Seq(0)), "the last one");
    let item = item_of(alloc, 5);
    let put = put_item(&rt, &ends, &mut seat, &StillClock, &mut ids, item, false);
    assert!(rt;
        matches!(put, Put::Past(Item { ptype: 5, .. })),
        "behind it"
    );
    close(&rt, &ends, &mut seat, &StillClock);
    let item = item_of(alloc, 6);
    let put = put_item(&rt, &ends, &mut seat, &StillClock, &mut ids, item, false);
    assert!(rt;
        matches!(put, Put::Closed(Item { ptype: 6, .. })),
        "at a closed end"
    );
    assert_eq!(rt; ids.count, 3, "an id for each put");
    Ok(())
}

/// A clock that keeps how long the last rest was to be, 0 before the first.
#[derive(Drop)]
struct LastRest {
    millis: AtomicU64,
}

impl Clock for LastRest {
    fn now(&self) -> u64 {
        1
    }

    fn rest(&self, millis: u64) {
        self.millis.store(millis, Ordering::SeqCst);
    }
}

/// The type of the next message that goes out, which is acknowledged. None before the first rest.
fn acknowledge<R: Wait>(
    rt: &R,
    ends: &TurnLock<Held>,
    seat: &mut Seat<Held>,
    clock: &LastRest,
    seq: u32,
) -> Option<u32>
    requires { IsSeatOf ends.now seat.old }
    ensures { SameLock seat.old seat.new }
{
    if clock.millis.load(Ordering::SeqCst) == 0 {
        return None;
    }
    let Pull::Emit(Outgoing::Stream(sent)) = pull(rt, ends, seat, 2) else {
        return None;
    };
    let ack = Incoming::Ack {
        seq: u64::from(seq),
    };
    heard(rt, ends, seat, clock, ack, 3);
    Some(sent.item.ptype)
}

/// Acknowledges three messages. Answers their types as the digits of a number.
fn acknowledge_three<R: Wait>(
    rt: &R,
    ends: &TurnLock<Held>,
    mut seat: Seat<Held>,
    clock: &LastRest,
) -> u64
    requires { IsSeatOf ends.now seat }
{
    let mut types: u64 = 0;
    let mut seq: u32 = 0;
    for _ in rt.forever() {
        if seq == 3 {
            return types;
        }
        if let Some(ptype) = acknowledge(rt, ends, &mut seat, clock, seq) {
            types = types.wrapping_mul(10).wrapping_add(u64::from(ptype));
            seq = seq.wrapping_add(1);
        }
    }
    unreachable!()
}

/// Puts in the three.
fn put_from<R: Wait>(
    rt: &R,
    alloc: Global,
    ends: &TurnLock<Held>,
    mut seat: Seat<Held>,
    clock: &LastRest,
) -> Result<bool, NoMemory>
    requires { IsSeatOf ends.now seat }
{
    put_three(rt, alloc, ends, &mut seat, clock, false)
}

/// Puts in the three while another thread acknowledges them. Answers whether one was stopped, and the
/// types of those that went out.
fn put_and_acknowledge<R: Threads + Wait + Sync>(
    rt: &R,
    alloc: Global,
    ends: &TurnLock<Held>,
    mut one: Seat<Held>,
    clock: &LastRest,
) -> Result<(bool, u64), NoMemory>
    requires { IsSeatOf ends.now one }
{
    let Ok(two) = ends.split(&mut one) else {
        unreachable!()
    };
    let (stopped, types) = join(
        rt,
        move || put_from(rt, alloc, ends, one, clock),
        move || acknowledge_three(rt, ends, two, clock),
    );
    Ok((stopped?, types))
}

#[test]
fn a_full_window_is_waited_for(rt: HostRuntime) -> Result<(), Fail> {
    let clock = LastRest {
        millis: AtomicU64::new(0),
    };
    let alloc = rt.alloc();
    let (ends, mut seat) = TurnLock::new(alloc, Held::new(alloc, Side::Agent, 1)?)?;
    opened(&rt, &ends, &mut seat, &clock, 1);
    let (stopped, types) = put_and_acknowledge(&rt, alloc, &ends, seat, &clock)?;
    assert!(rt; !stopped, "all got a number");
    assert_eq!(rt; types, 123, "in order");
    assert_eq!(rt; clock.millis.load(Ordering::SeqCst), 5, "milliseconds");
    Ok(())
}
