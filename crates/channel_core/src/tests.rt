//! Short histories of an end.

mod steps;

use crate::tests::steps::{Step, Told, Why, run};
use crate::{End, Look, Tick};
use chan_values::Side;
use std::test::Fail;

#[test]
fn a_put_is_numbered_or_handed_back(rt: HostRuntime) -> Result<(), Fail> {
    let mut plugin = End::new(rt.alloc(), Side::Plugin, 2)?;
    let steps = [
        Step::Put(b'a', 0),
        Step::Put(b'b', 1),
        Step::Refused(b'c', Why::Full),
        Step::Close,
        Step::Refused(b'd', Why::Closed),
    ];
    assert_eq!(rt; run(&mut plugin, rt.alloc(), &steps)?, 5);
    let look = Look {
        next: 2,
        low: 0,
        expected: 0,
        room: 0,
        closed: true,
        finished: false,
    };
    assert_eq!(rt; plugin.look(), look);
    Ok(())
}

#[test]
fn nothing_is_put_after_the_last(rt: HostRuntime) -> Result<(), Fail> {
    let mut plugin = End::new(rt.alloc(), Side::Plugin, 2)?;
    let steps = [
        Step::Opened(0),
        Step::Put(b'a', 0),
        Step::PutLast(b'b', 1),
        Step::Refused(b'c', Why::Past),
        Step::Sends(0, 0, b'a', false),
        Step::Sends(0, 1, b'b', true),
        Step::Lost,
        Step::Opened(1),
        Step::HearAck(1, 0, true),
        Step::Sends(1, 1, b'b', true),
    ];
    assert_eq!(rt; run(&mut plugin, rt.alloc(), &steps)?, 10);
    let look = Look {
        next: 2,
        low: 1,
        expected: 0,
        room: 0,
        closed: false,
        finished: true,
    };
    assert_eq!(rt; plugin.look(), look);
    Ok(())
}

#[test]
fn a_direction_ends_with_its_last_item(rt: HostRuntime) -> Result<(), Fail> {
    let mut agent = End::new(rt.alloc(), Side::Agent, 3)?;
    let steps = [
        Step::Opened(0),
        Step::Hear(1, b'b', true, Told::Released(b"".as_slice())),
        Step::Hear(2, b'c', false, Told::PastEnd(1)),
        Step::Hear(0, b'a', true, Told::PastEnd(1)),
        Step::Hear(0, b'a', false, Told::Finished(b"ab".as_slice())),
        Step::Hear(1, b'b', true, Told::Late),
        Step::Acks(0, 1),
        Step::Acks(0, 0),
        Step::Put(b'd', 0),
        Step::Sends(0, 0, b'd', false),
    ];
    assert_eq!(rt; run(&mut agent, rt.alloc(), &steps)?, 10);
    Ok(())
}

#[test]
fn a_pull_gives_an_acknowledgement_first(rt: HostRuntime) -> Result<(), Fail> {
    let mut plugin = End::new(rt.alloc(), Side::Plugin, 2)?;
    let steps = [
        Step::Put(b'a', 0),
        Step::Idle(0),
        Step::Opened(0),
        Step::Hear(0, b'b', false, Told::Released(b"b".as_slice())),
        Step::Acks(7, 0),
        Step::Sends(8, 0, b'a', false),
        Step::Idle(9),
    ];
    assert_eq!(rt; run(&mut plugin, rt.alloc(), &steps)?, 7);
    Ok(())
}

#[test]
fn early_items_are_released_by_number(rt: HostRuntime) -> Result<(), Fail> {
    let mut agent = End::new(rt.alloc(), Side::Agent, 3)?;
    // The last number heard is not owed, and 3 found no room.
    let steps = [
        Step::Opened(0),
        Step::Hear(2, b'c', false, Told::Released(b"".as_slice())),
        Step::Hear(1, b'b', false, Told::Released(b"".as_slice())),
        Step::Hear(0, b'a', false, Told::Released(b"abc".as_slice())),
        Step::Hear(3, b'd', false, Told::Released(b"d".as_slice())),
        Step::Hear(1, b'b', false, Told::Late),
        Step::Hear(7, b'h', false, Told::Beyond),
        Step::Acks(0, 2),
        Step::Acks(0, 1),
        Step::Acks(0, 0),
        Step::Idle(0),
    ];
    assert_eq!(rt; run(&mut agent, rt.alloc(), &steps)?, 11);
    Ok(())
}

#[test]
fn a_late_message_is_not_owed_where_the_list_is_full(rt: HostRuntime) -> Result<(), Fail> {
    let mut agent = End::new(rt.alloc(), Side::Agent, 1)?;
    let steps = [
        Step::Opened(0),
        Step::Hear(0, b'a', false, Told::Released(b"a".as_slice())),
        Step::Acks(0, 0),
        Step::Hear(1, b'b', false, Told::Released(b"b".as_slice())),
        Step::Hear(0, b'a', false, Told::Late),
        Step::Acks(0, 1),
        Step::Idle(0),
    ];
    assert_eq!(rt; run(&mut agent, rt.alloc(), &steps)?, 7);
    Ok(())
}

#[test]
fn a_pause_holds_stream_messages_back(rt: HostRuntime) -> Result<(), Fail> {
    let mut plugin = End::new(rt.alloc(), Side::Plugin, 10_000)?;
    let steps = [
        Step::Opened(0),
        Step::Put(b'a', 0),
        Step::Hear(0, b'b', false, Told::Released(b"b".as_slice())),
        Step::Pause,
        Step::Acks(0, 0),
        Step::Idle(0),
        Step::Start,
        Step::Sends(0, 0, b'a', false),
        Step::HearAck(0, 0, true),
    ];
    assert_eq!(rt; run(&mut plugin, rt.alloc(), &steps)?, 9);
    assert_eq!(rt; plugin.look().low, 1);
    Ok(())
}

#[test]
fn a_closing_with_a_text_ends_an_end(rt: HostRuntime) -> Result<(), Fail> {
    let mut plugin = End::new(rt.alloc(), Side::Plugin, 2)?;
    let steps = [
        Step::Opened(0),
        Step::Put(b'a', 0),
        Step::Bye,
        Step::Hear(0, b'b', false, Told::AfterClose),
        Step::Idle(0),
        Step::Tick(1000, Tick::Nothing),
    ];
    assert_eq!(rt; run(&mut plugin, rt.alloc(), &steps)?, 6);
    assert_eq!(rt; plugin.look().expected, 0);
    Ok(())
}

#[test]
fn a_timer_runs_from_the_transmission_after_a_reopening(rt: HostRuntime) -> Result<(), Fail> {
    let mut plugin = End::new(rt.alloc(), Side::Plugin, 2)?;
    // The timeout is 200 ms, and a number that is marked is not marked again.
    let steps = [
        Step::Opened(0),
        Step::Put(b'a', 0),
        Step::Sends(0, 0, b'a', false),
        Step::Lost,
        Step::Tick(5000, Tick::Nothing),
        Step::Opened(5000),
        Step::Tick(6000, Tick::Nothing),
        Step::Sends(6000, 0, b'a', false),
        Step::Tick(6200, Tick::Nothing),
        Step::Tick(6201, Tick::Due(0)),
        Step::Tick(9000, Tick::Nothing),
    ];
    assert_eq!(rt; run(&mut plugin, rt.alloc(), &steps)?, 11);
    Ok(())
}

#[test]
fn an_acknowledgement_counts_after_a_reopening(rt: HostRuntime) -> Result<(), Fail> {
    let mut plugin = End::new(rt.alloc(), Side::Plugin, 2)?;
    // The sample is 150: 850 / 8 is 106, and the deviation is 50, so the timeout is 156.
    let steps = [
        Step::Opened(0),
        Step::Put(b'a', 0),
        Step::Put(b'b', 1),
        Step::Sends(0, 0, b'a', false),
        Step::Lost,
        Step::Opened(100),
        Step::HearAck(150, 0, true),
        Step::HearAck(150, 0, false),
        Step::HearAck(150, 1, false),
        Step::Sends(200, 1, b'b', false),
        Step::Idle(200),
        Step::Tick(356, Tick::Nothing),
        Step::Tick(357, Tick::Due(1)),
    ];
    assert_eq!(rt; run(&mut plugin, rt.alloc(), &steps)?, 13);
    Ok(())
}

#[test]
fn an_end_gives_up_after_three_thousand_resends(rt: HostRuntime) -> Result<(), Fail> {
    let mut plugin = End::new(rt.alloc(), Side::Plugin, 10_000)?;
    let begin = [
        Step::Opened(0),
        Step::Put(b'a', 0),
        Step::Sends(0, 0, b'a', false),
        Step::Tick(200, Tick::Nothing),
    ];
    assert_eq!(rt; run(&mut plugin, rt.alloc(), &begin)?, 4);
    for round in 1..3001u64 {
        let now = 201 * round;
        let again = [
            Step::Tick(now, Tick::Due(0)),
            Step::Sends(now, 0, b'a', false),
        ];
        assert_eq!(rt; run(&mut plugin, rt.alloc(), &again)?, 2);
    }
    let end = [
        Step::Tick(603_201, Tick::GaveUp(0)),
        Step::Refused(b'a', Why::Closed),
    ];
    assert_eq!(rt; run(&mut plugin, rt.alloc(), &end)?, 2);
    Ok(())
}
