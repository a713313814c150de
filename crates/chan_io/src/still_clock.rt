//! A clock that stands still.

use crate::clock::Clock;

/// A clock whose moment is always 0, and whose rests take no time.
#[derive(Clone, Copy, Debug)]
pub struct StillClock;

impl Clock for StillClock {
    fn now(&self) -> u64 {
        0
    }

    fn rest(&self, _millis: u64) {}
}
