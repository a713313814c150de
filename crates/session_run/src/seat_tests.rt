//! The calls of a shelf and of an end, each through a seat.
ghost use Rattle.std.specs.Prelude.{◌≡◌, []};

use crate::{Count, Held, Parcel, Shelf, end_seat, shelf_seat};
use chan_io::StillClock;
use chan_values::{Bytes, Item, Side};
use channel_core::{Heard, Incoming, Pull, Put, Tick};
use std::alloc::Global;
use std::test::Fail;
use turn_lock::TurnLock;

/// An item without payload.
fn item_of(alloc: Global, ptype: u32) -> Item
    ensures { result.payload ≡ [] }
{
    Item {
        ptype,
        payload: Bytes::new(Vec::new(alloc)),
    }
}

#[test]
fn parcels_are_taken_in_the_order_in_which_they_came(rt: HostRuntime) -> Result<(), Fail> {
    let alloc = rt.alloc();
    let (shelf, mut seat) = TurnLock::new(alloc, Shelf::new(alloc))?;
    let arrived = Parcel::Arrived(item_of(alloc, 7));
    assert!(rt;
        shelf_seat::add(&rt, &shelf, &mut seat, &StillClock, arrived),
        "the first"
    );
    assert!(rt;
        shelf_seat::add(&rt, &shelf, &mut seat, &StillClock, Parcel::Over),
        "the second"
    );
    assert!(rt;
        shelf_seat::add(&rt, &shelf, &mut seat, &StillClock, Parcel::Finished),
        "the third"
    );
    let first = shelf_seat::first(&rt, &shelf, &mut seat);
    assert!(rt;
        matches!(first, Some(Parcel::Arrived(Item { ptype: 7, .. }))),
        "the item"
    );
    let second = shelf_seat::first(&rt, &shelf, &mut seat);
    assert!(rt; matches!(second, Some(Parcel::Over)), "the end of a feeder");
    let third = shelf_seat::first(&rt, &shelf, &mut seat);
    assert!(rt;
        matches!(third, Some(Parcel::Finished)),
        "the end of the direction"
    );
    let fourth = shelf_seat::first(&rt, &shelf, &mut seat);
    assert!(rt; fourth.is_none(), "nothing waits");
    Ok(())
}

#[test]
fn a_count_tells_what_was_noted(rt: HostRuntime) -> Result<(), Fail> {
    let alloc = rt.alloc();
    let (shelf, mut one) = TurnLock::new(alloc, Shelf::new(alloc))?;
    let mut two = shelf.split(&mut one)?;
    shelf_seat::note_opening(&rt, &shelf, &mut two, &StillClock);
    shelf_seat::note_opening(&rt, &shelf, &mut two, &StillClock);
    shelf_seat::note_finish(&rt, &shelf, &mut two, &StillClock, true);
    shelf_seat::add(&rt, &shelf, &mut two, &StillClock, Parcel::Over);
    let count = shelf_seat::count(&rt, &shelf, &mut one);
    let expected = Count {
        parcels: 1,
        openings: 2,
        finish: false,
        fault: true,
    };
    assert!(rt; count == expected, "one parcel, two openings, a fault");
    Ok(())
}

#[test]
fn an_end_answers_through_a_seat(rt: HostRuntime) -> Result<(), Fail> {
    let alloc = rt.alloc();
    let (ends, mut seat) = TurnLock::new(alloc, Held::new(alloc, Side::Plugin, 2)?)?;
    end_seat::opened(&rt, &ends, &mut seat, &StillClock, 1);
    let item = item_of(alloc, 1);
    let put = end_seat::put(&rt, &ends, &mut seat, &StillClock, item, [1; 16], 2);
    assert!(rt; matches!(put, Put::Seq(0)), "the first item");
    let item = item_of(alloc, 1);
    let put = end_seat::put_last(&rt, &ends, &mut seat, &StillClock, item, [2; 16], 2);
    assert!(rt; matches!(put, Put::Seq(1)), "the last item");
    let item = item_of(alloc, 1);
    let put = end_seat::put(&rt, &ends, &mut seat, &StillClock, item, [3; 16], 2);
    assert!(rt;
        matches!(put, Put::Past(Item { ptype: 1, .. })),
        "an item behind the last"
    );
    let pull = end_seat::pull(&rt, &ends, &mut seat, 3);
    assert!(rt; matches!(pull, Pull::Emit(_)), "the first item goes out");
    let ack = Incoming::Ack { seq: 0 };
    let heard = end_seat::heard(&rt, &ends, &mut seat, &StillClock, ack, 4);
    assert!(rt; matches!(heard, Heard::Acked(0)), "the other end has it");
    let tick = end_seat::tick(&rt, &ends, &mut seat, &StillClock, 5);
    assert!(rt; tick == Tick::Nothing, "no timer has expired");
    end_seat::lost(&rt, &ends, &mut seat);
    let pull = end_seat::pull(&rt, &ends, &mut seat, 6);
    assert!(rt; matches!(pull, Pull::Idle), "nothing goes out");
    end_seat::close(&rt, &ends, &mut seat, &StillClock);
    let look = end_seat::look(&rt, &ends, &mut seat);
    assert!(rt;
        look.low == 1 && look.next == 2 && look.closed,
        "what a look tells"
    );
    Ok(())
}
