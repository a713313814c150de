use crate::{SystemClock, SystemEntropy};
use chan_io::{Clock, Entropy};
use std::sync::Wait;
use std::sync::atomic::{AtomicBool, Ordering};
use std::thread;
use std::thread::join;

/// Milliseconds from 1970-01-01 to 2020-01-01, UTC.
const YEAR_2020: u64 = 1_577_836_800_000;

#[test]
fn moments_go_on(rt: HostRuntime) {
    let clock = SystemClock::new(&rt);
    let before = clock.now();
    clock.rest(2);
    assert!(rt; before > YEAR_2020, "the moment is a date of today");
    assert!(rt; clock.now() >= before, "it does not go back");
}

/// Wakes until a rest has ended.
fn wake_until<R: Wait, C: Clock>(rt: &R, clock: &C, ended: &AtomicBool) {
    for _ in rt.forever() {
        if ended.load(Ordering::SeqCst) {
            break;
        }
        clock.wake();
        thread::yield_now();
    }
}

/// Rests for a minute, or less.
fn rest_once<C: Clock>(clock: &C, ended: &AtomicBool) {
    clock.rest(60_000);
    ended.store(true, Ordering::SeqCst);
}

#[test]
fn a_wake_ends_a_rest(rt: HostRuntime) {
    let clock = SystemClock::new(&rt);
    let ended = AtomicBool::new(false);
    let before = clock.now();
    join(
        &rt,
        || rest_once(&clock, &ended),
        || wake_until(&rt, &clock, &ended),
    );
    assert!(rt;
        clock.now().saturating_sub(before) < 30_000,
        "the rest was short"
    );
}

#[test]
fn two_draws_differ(rt: HostRuntime) {
    let mut entropy = SystemEntropy::open(&rt);
    let first = entropy.draw();
    let second = entropy.draw();
    assert!(rt; first.is_ok() && second.is_ok(), "both are drawn");
    assert!(rt; first != second, "they differ");
    assert_eq!(rt; entropy.faults(), 0, "none failed");
}

#[test]
fn a_reader_that_is_short_of_bytes_fails(rt: HostRuntime) {
    let mut entropy = SystemEntropy::new(Some(b"fifteen bytes..".as_slice()));
    assert!(rt; entropy.draw().is_err(), "one byte is missing");
    assert_eq!(rt; entropy.faults(), 1, "it is counted");
}
