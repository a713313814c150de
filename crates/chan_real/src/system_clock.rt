//! The clock of the system.

use crate::bell::Bell;
use chan_io::Clock;
use std::sync::Wait;
use std::time::Duration;

/// The clock of the system. Its moments are milliseconds since 1970-01-01 UTC as the system had them when
/// the clock was made, and go on by the clock that is never set, so they do not go back. Where the
/// system tells no time they stand still. A rest ends after its time, at a `wake`, or shortly after one.
#[derive(Drop)]
pub struct SystemClock<R> {
    rt: R,
    // Nanoseconds since 1970 at nanosecond 0 of the clock that is never set.
    start: u64,
    bell: Bell,
}

impl<R: std::time::Clock> SystemClock<R> {
    /// The clock of this runtime.
    pub fn new(rt: R) -> SystemClock<R> {
        let start = wall_nanos(&rt).saturating_sub(steady_nanos(&rt));
        SystemClock {
            rt,
            start,
            bell: Bell::new(),
        }
    }
}

impl<R: Wait + std::time::Clock> Clock for SystemClock<R> {
    fn now(&self) -> u64 {
        self.start.saturating_add(steady_nanos(&self.rt)) / 1_000_000
    }

    fn rest(&self, millis: u64) {
        let now = steady_nanos(&self.rt);
        self.bell.rest(&self.rt, now, Duration::from_millis(millis));
    }

    fn wake(&self) {
        self.bell.ring(steady_nanos(&self.rt));
    }
}

/// Nanoseconds since 1970, or 0 where the system tells none.
fn wall_nanos<R: std::time::Clock>(rt: &R) -> u64 {
    rt.since_1970().map_or(0, |time| nanos(time))
}

/// Nanoseconds of the clock that is never set, or 0 where the system tells none.
fn steady_nanos<R: std::time::Clock>(rt: &R) -> u64 {
    rt.monotonic().map_or(0, |time| nanos(time))
}

/// The nanoseconds of a duration, as far as they go.
fn nanos(time: Duration) -> u64 {
    u64::try_from(time.as_nanos()).unwrap_or(u64::MAX)
}
