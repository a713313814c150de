ghost use Rattle.std.specs.Prelude.{◌≡◌, IfOk, length};

use super::Queue;
use crate::{Kept, Mark, Out};
use chan_values::{Bytes, Item, MAX_SEQ};
use slot_ring::SlotRing;
use std::alloc::Global;
use std::test::Fail;

/// An item of one byte.
fn item(alloc: Global, byte: u8) -> Result<Item, Fail>
    ensures { IfOk result (λ item. length item.payload ≡ 1) }
{
    Ok(Item {
        ptype: 1,
        payload: Bytes::new(vec![in alloc; byte]?),
    })
}

#[test]
fn a_message_goes_out_until_it_is_acknowledged(rt: HostRuntime) -> Result<(), Fail> {
    let alloc = rt.alloc();
    let mut queue = Queue::new(alloc, 1).expect(&rt, "there is memory");
    let first = queue.put(item(alloc, b'a')?, [1; 16], 5);
    assert!(rt; matches!(first, Kept::Seq(0)), "the first number is 0");
    assert!(rt;
        is_first(&queue.next_out(6)),
        "it goes out as it was put in"
    );
    assert!(rt; matches!(queue.next_out(6), Out::Idle), "once");
    assert!(rt;
        queue.mark_due(207, 200) == Mark::Due(0),
        "after 201 ms it is due"
    );
    assert!(rt; queue.mark_due(207, 200) == Mark::Nothing, "once");
    assert!(rt; is_first(&queue.next_out(207)), "it goes out again");
    assert!(rt; queue.acked(0) == Some(207), "the last transmission counts");
    assert!(rt; queue.acked(0).is_none(), "once");
    assert!(rt; queue.low() == 1, "nothing is left");
    Ok(())
}

#[test]
fn a_refused_item_comes_back(rt: HostRuntime) -> Result<(), Fail> {
    let alloc = rt.alloc();
    let mut queue = Queue::new(alloc, 1).expect(&rt, "there is memory");
    let _first = queue.put(item(alloc, b'a')?, [1; 16], 5);
    let full = queue.put(item(alloc, b'b')?, [2; 16], 5);
    let back = matches!(&full, Kept::Full(item) if item.payload.as_slice() == b"b".as_slice());
    assert!(rt; back, "the window is one");
    let mut queue = Queue {
        alloc,
        window: 1,
        next: MAX_SEQ,
        slots: SlotRing::new(alloc, MAX_SEQ, 1)?,
        cursor: MAX_SEQ,
        due: false,
        dues: 0,
        ended: false,
    };
    let last = queue.put(item(alloc, b'c')?, [3; 16], 5);
    assert!(rt; matches!(last, Kept::Seq(MAX_SEQ)), "the last number");
    let spent = queue.put(item(alloc, b'd')?, [4; 16], 5);
    let back = matches!(&spent, Kept::Spent(item) if item.payload.as_slice() == b"d".as_slice());
    assert!(rt; back, "no number is left, which counts before the window");
    Ok(())
}

#[test]
fn nothing_is_taken_after_the_last(rt: HostRuntime) -> Result<(), Fail> {
    let alloc = rt.alloc();
    let mut queue = Queue::new(alloc, 1).expect(&rt, "there is memory");
    let last = queue.put_last(item(alloc, b'a')?, [1; 16], 5);
    assert!(rt; matches!(last, Kept::Seq(0)), "the last item has a number");
    let past = queue.put(item(alloc, b'b')?, [2; 16], 5);
    let back = matches!(&past, Kept::Past(item) if item.payload.as_slice() == b"b".as_slice());
    assert!(rt; back, "nothing follows it, which counts before the window");
    Ok(())
}

#[test]
fn the_last_goes_out_as_the_last_each_time(rt: HostRuntime) -> Result<(), Fail> {
    let alloc = rt.alloc();
    let mut queue = Queue::new(alloc, 1).expect(&rt, "there is memory");
    let _last = queue.put_last(item(alloc, b'a')?, [1; 16], 5);
    for _time in 0..2 {
        let out = queue.next_out(6);
        assert!(rt;
            matches!(&out, Out::Stream(sent) if sent.last),
            "it is the last"
        );
        queue.reopen();
    }
    Ok(())
}

#[test]
fn a_full_queue_with_nothing_to_send_is_not_searched(rt: HostRuntime) -> Result<(), Fail> {
    let alloc = rt.alloc();
    let mut queue = Queue::new(alloc, 10_000).expect(&rt, "there is memory");
    for number in 0..10_000 {
        let kept = queue.put(item(alloc, b'a')?, [1; 16], 5);
        assert!(rt;
            matches!(kept, Kept::Seq(seq) if seq == number),
            "{number} is kept"
        );
    }
    for number in 0..10_000 {
        let out = queue.next_out(6);
        assert!(rt;
            matches!(&out, Out::Stream(sent) if sent.seq == number),
            "{number} goes out"
        );
    }
    for _count in 0..5_000_000 {
        assert!(rt; matches!(queue.next_out(7), Out::Idle), "nothing is left");
    }
    Ok(())
}

/// Whether this is the message 0 of the first test.
fn is_first(out: &Out) -> bool {
    match out {
        Out::Stream(sent) => {
            sent.seq == 0
                && sent.id == [1; 16]
                && sent.date == 5
                && !sent.last
                && sent.item.ptype == 1
                && sent.item.payload.as_slice() == b"a".as_slice()
        }
        _ => false,
    }
}
