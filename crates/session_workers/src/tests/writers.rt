//! A link writer over an output in memory, and a resend worker beside it.

use super::bench::{Bench, Step};
use super::clocks::{At, Rests};
use crate::WorkerEnd;
use chan_io::Got;
use chan_values::{NoMemory, Side};
use std::alloc::Global;
use std::sync::Wait;
use std::test::Fail;

/// The first message of a plugin: input_stream_data, number 0, id 1, date 1, "abc" as Output.
/// FIPS 180-4 has the SHA-256 of "abc".
const FIRST: [u8; 123] = *b"\x00\x00\x00\x74input_stream_data               \
    \x00\x00\x00\x01\x00\x00\x00\x00\x00\x00\x00\x01\x00\x00\x00\x00\x00\x00\x00\x00\
    \x00\x00\x00\x00\x00\x00\x00\x01\x00\x00\x00\x00\x00\x00\x00\x01\x00\x00\x00\x00\x00\x00\x00\x00\
    \xba\x78\x16\xbf\x8f\x01\xcf\xea\x41\x41\x40\xde\x5d\xae\x22\x23\
    \xb0\x03\x61\xa3\x96\x17\x7a\x9c\xb4\x10\xff\x61\xf2\x00\x15\xad\
    \x00\x00\x00\x01\x00\x00\x00\x03abc";

/// How many of these steps come to what they say before one does not.
fn makes<R: Wait>(
    rt: &R,
    alloc: Global,
    bench: &mut Bench,
    steps: &[Step],
) -> Result<usize, NoMemory> {
    for (place, step) in steps.iter().enumerate() {
        if !bench.make(rt, alloc, *step)? {
            return Ok(place);
        }
    }
    Ok(steps.len())
}

#[test]
fn a_writer_sends_what_was_put_and_ends_at_a_closed_end(rt: HostRuntime) -> Result<(), Fail> {
    let mut bench = Bench::new(rt.alloc(), Side::Plugin, &[])?;
    let steps = [
        Step::Opens,
        Step::Puts(0),
        Step::Writes("b", false),
        Step::Writes("b", false),
        Step::Resends(0, None, false),
        Step::Closes,
        Step::Writes("b", true),
        Step::Resends(0, None, true),
    ];
    assert_eq!(rt; makes(&rt, rt.alloc(), &mut bench, &steps)?, 8);
    let sent = bench.writer.output.sent();
    assert!(rt;
        matches!(sent, [Got::Binary(bytes)] if bytes.as_slice() == FIRST.as_slice()),
        "the encoding of message 0"
    );
    Ok(())
}

#[test]
fn a_failed_send_is_made_again_when_it_is_due(rt: HostRuntime) -> Result<(), Fail> {
    let mut bench = Bench::new(rt.alloc(), Side::Plugin, &[0])?;
    let steps = [
        Step::Opens,
        Step::Puts(0),
        Step::Writes("", false),
        Step::Resends(200, None, false),
        Step::Writes("", false),
        Step::Resends(201, None, false),
        Step::Writes("b", false),
        Step::Acks(0),
        Step::Resends(1000, None, false),
        Step::Writes("b", false),
    ];
    assert_eq!(rt; makes(&rt, rt.alloc(), &mut bench, &steps)?, 10);
    Ok(())
}

#[test]
fn the_agent_ends_the_session_once_for_each_connection(rt: HostRuntime) -> Result<(), Fail> {
    let mut bench = Bench::new(rt.alloc(), Side::Agent, &[])?;
    let steps = [
        Step::Opens,
        Step::Puts(0),
        Step::Writes("b", false),
        Step::Writes("b", false),
        Step::Finishes(false),
        Step::Writes("b", false),
        Step::Acks(0),
        Step::Writes("bt", false),
        Step::Writes("bt", false),
        Step::Opens,
        Step::Writes("btt", false),
        Step::Closes,
        Step::Writes("btt", true),
    ];
    assert_eq!(rt; makes(&rt, rt.alloc(), &mut bench, &steps)?, 13);
    Ok(())
}

#[test]
fn after_a_fault_the_session_is_ended_at_a_closed_end(rt: HostRuntime) -> Result<(), Fail> {
    let steps = [
        Step::Opens,
        Step::Finishes(true),
        Step::Writes("", false),
        Step::Closes,
        Step::Writes("t", true),
    ];
    let mut bench = Bench::new(rt.alloc(), Side::Agent, &[])?;
    assert_eq!(rt; makes(&rt, rt.alloc(), &mut bench, &steps)?, 5);
    let mut bench = Bench::new(rt.alloc(), Side::Plugin, &[])?;
    assert_eq!(rt;
        makes(&rt, rt.alloc(), &mut bench, &steps)?,
        4,
        "a plugin ends no session"
    );
    Ok(())
}

/// Sends again what is due, and lets the timer expire, so many times; answers the number given up.
fn resend<R: Wait>(rt: &R, alloc: Global, bench: &mut Bench, times: u32) -> Option<u64> {
    let mut given = None;
    for round in 0..times {
        let now = u64::from(round).saturating_mul(2000);
        bench.write(rt, alloc, &At(now));
        given = bench.resend(rt, &At(now.saturating_add(1001)));
    }
    given
}

#[test]
fn a_message_is_given_up_when_it_was_due_3000_times(rt: HostRuntime) -> Result<(), Fail> {
    let mut bench = Bench::new(rt.alloc(), Side::Plugin, &[])?;
    let steps = [Step::Opens, Step::Puts(0)];
    assert_eq!(rt; makes(&rt, rt.alloc(), &mut bench, &steps)?, 2);
    assert_eq!(rt; resend(&rt, rt.alloc(), &mut bench, 3000), None, "due");
    assert!(rt; !bench.resender.over, "the end is open");
    assert_eq!(rt; bench.writer.output.sent().len(), 3000, "sent again");
    assert_eq!(rt; resend(&rt, rt.alloc(), &mut bench, 1), Some(0), "given up");
    assert!(rt; bench.resender.over, "the end is closed");
    Ok(())
}

#[test]
fn a_worker_rests_where_it_finds_nothing(rt: HostRuntime) -> Result<(), Fail> {
    let mut bench = Bench::new(rt.alloc(), Side::Plugin, &[])?;
    let clock = Rests::new();
    bench.write(&rt, rt.alloc(), &clock);
    assert_eq!(rt; clock.millis(), 5, "the writer");
    bench.resend(&rt, &clock);
    assert_eq!(rt; clock.millis(), 10, "the resend worker");
    Ok(())
}

#[test]
fn the_jobs_end_at_a_closed_end(rt: HostRuntime) -> Result<(), Fail> {
    let steps = [
        Step::Opens,
        Step::Puts(0),
        Step::Finishes(true),
        Step::Closes,
    ];
    let mut bench = Bench::new(rt.alloc(), Side::Agent, &[])?;
    assert_eq!(rt; makes(&rt, rt.alloc(), &mut bench, &steps)?, 4);
    let written = bench.write_all(&rt, rt.alloc());
    assert_eq!(rt; written, Some((WorkerEnd::Closed, 1)), "with the text");
    let mut bench = Bench::new(rt.alloc(), Side::Agent, &[])?;
    assert_eq!(rt; makes(&rt, rt.alloc(), &mut bench, &steps)?, 4);
    assert_eq!(rt; bench.resend_all(&rt), Some((true, None)), "at once");
    Ok(())
}
