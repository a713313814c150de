use crate::streams::{add, begin, give};
use crate::trail::Trail;
use crate::{ByteQueue, Stream, Taken};
use std::collections::BTreeMap;
use std::test::Fail;

/// Whether these bytes were given.
fn is_given(taken: &Taken, expected: &[u8]) -> bool {
    match taken {
        Taken::Bytes(bytes) => bytes.as_slice() == expected,
        _ => false,
    }
}

#[test]
fn bytes_leave_a_queue_in_order(rt: HostRuntime) -> Result<(), Fail> {
    let mut queue = ByteQueue::new(rt.alloc());
    assert!(rt; queue.append(b"hel").is_ok(), "there is memory");
    assert!(rt; queue.append(b"lo").is_ok(), "there is memory");
    let first = queue.take_front(4).expect(&rt, "there is memory");
    assert!(rt; first.as_slice() == b"hell".as_slice(), "the first four");
    let rest = queue.take_front(4).expect(&rt, "there is memory");
    assert!(rt; rest.as_slice() == b"o".as_slice(), "as many as there are");
    Ok(())
}

#[test]
fn a_stream_gives_its_data_and_then_its_end(rt: HostRuntime) -> Result<(), Fail> {
    let mut stream = Stream::new(rt.alloc());
    assert!(rt; matches!(stream.take(9), Taken::Nothing), "nothing came");
    assert!(rt; stream.add(b"hi").is_ok(), "there is memory");
    stream.over = true;
    assert!(rt; is_given(&stream.take(9), b"hi"), "its data");
    assert!(rt; matches!(stream.take(9), Taken::End), "and then its end");
    Ok(())
}

#[test]
fn streams_are_found_by_id(rt: HostRuntime) -> Result<(), Fail> {
    let alloc = rt.alloc();
    let mut streams = BTreeMap::new(alloc);
    assert!(rt; begin(alloc, &mut streams, 3).is_ok(), "there is memory");
    assert!(rt; add(&mut streams, 3, b"hi").is_ok(), "there is memory");
    assert!(rt;
        matches!(give(&mut streams, 5, 9), Taken::Unknown),
        "5 was not begun"
    );
    assert!(rt; is_given(&give(&mut streams, 3, 1), b"h"), "one byte");
    assert!(rt; is_given(&give(&mut streams, 3, 9), b"i"), "the other");
    assert!(rt;
        matches!(give(&mut streams, 3, 9), Taken::Nothing),
        "no more"
    );
    let mut trail = Trail::new(alloc);
    assert!(rt; trail.reserve().is_ok(), "there is memory");
    Ok(())
}
