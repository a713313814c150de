use crate::{Take, Window};
use chan_values::{Bytes, Item, Items};
use std::alloc::Global;
use std::test::Fail;

/// An answer, with the bytes of the items.
#[derive(Clone, Copy)]
enum Wanted {
    Released(&'static [u8]),
    Finished(&'static [u8]),
    Late,
    Beyond,
    PastEnd(u64),
}

/// A message of one byte and what it gets: number, byte, whether it is the last, answer.
type Row = (u32, u8, bool, Wanted);

#[test]
fn an_early_item_waits_for_the_one_before_it(rt: HostRuntime) -> Result<(), Fail> {
    let alloc = rt.alloc();
    let mut window = Window::new(alloc, 3).expect(&rt, "there is memory");
    let early: [Row; 4] = [
        (3, b'd', false, Wanted::Beyond),
        (2, b'c', false, Wanted::Released(b"")),
        (2, b'x', false, Wanted::Late),
        (1, b'b', false, Wanted::Released(b"")),
    ];
    assert!(rt; answers(alloc, &mut window, &early)?, "none is in order");
    assert!(rt; window.held() == 2, "two wait");
    let next: [Row; 2] = [
        (0, b'a', false, Wanted::Released(b"abc")),
        (3, b'd', false, Wanted::Released(b"d")),
    ];
    assert!(rt; answers(alloc, &mut window, &next)?, "all are in order");
    assert!(rt; window.held() == 0, "none waits");
    assert!(rt; window.expected() == 4, "four is next");
    Ok(())
}

#[test]
fn a_window_of_two_waits_for_the_first_item(rt: HostRuntime) -> Result<(), Fail> {
    let alloc = rt.alloc();
    let mut window = Window::new(alloc, 2).expect(&rt, "there is memory");
    let early: [Row; 2] = [
        (2, b'c', false, Wanted::Beyond),
        (1, b'b', false, Wanted::Released(b"")),
    ];
    assert!(rt; answers(alloc, &mut window, &early)?, "none is in order");
    assert!(rt; window.held() == 1, "one waits");
    let next: [Row; 2] = [
        (0, b'a', false, Wanted::Released(b"ab")),
        (1, b'b', false, Wanted::Late),
    ];
    assert!(rt; answers(alloc, &mut window, &next)?, "each once");
    Ok(())
}

#[test]
fn nothing_is_taken_after_the_last_message(rt: HostRuntime) -> Result<(), Fail> {
    let alloc = rt.alloc();
    let mut window = Window::new(alloc, 3).expect(&rt, "there is memory");
    let rows: [Row; 5] = [
        (1, b'b', true, Wanted::Released(b"")),
        (2, b'c', false, Wanted::PastEnd(1)),
        (0, b'a', true, Wanted::PastEnd(1)),
        (0, b'a', false, Wanted::Finished(b"ab")),
        (1, b'b', true, Wanted::Late),
    ];
    assert!(rt;
        answers(alloc, &mut window, &rows)?,
        "the second is the last"
    );
    Ok(())
}

/// Whether these messages are answered so, one after the other.
fn answers(alloc: Global, window: &mut Window, rows: &[Row]) -> Result<bool, Fail> {
    for (seq, byte, last, wanted) in rows {
        let item = Item {
            ptype: 1,
            payload: Bytes::new(vec![in alloc; *byte]?),
        };
        let take = window.take(u64::from(*seq), item, *last);
        if !is_wanted(&take, *wanted) {
            return Ok(false);
        }
    }
    Ok(true)
}

/// Whether an answer is this one.
fn is_wanted(take: &Take, wanted: Wanted) -> bool {
    match (take, wanted) {
        (Take::Released(items), Wanted::Released(bytes)) => are_of(items, bytes),
        (Take::Finished(items), Wanted::Finished(bytes)) => are_of(items, bytes),
        (Take::PastEnd(end), Wanted::PastEnd(wanted)) => *end == wanted,
        (Take::Late, Wanted::Late) | (Take::Beyond, Wanted::Beyond) => true,
        _ => false,
    }
}

/// Whether these are items of one byte each, in this order.
fn are_of(items: &Items, bytes: &[u8]) -> bool {
    items.as_slice().len() == bytes.len()
        && items.as_slice().iter().zip(bytes).all(|(item, byte)| item.payload.as_slice()
            == [*byte].as_slice())
}
