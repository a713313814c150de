//! Clocks whose moment is known, and whose rests take no time.

use chan_io::Clock;
use std::sync::atomic::{AtomicU64, Ordering};

/// A clock that stands at a moment.
#[derive(Clone, Copy)]
pub(crate) struct At(pub(crate) u64);

impl Clock for At {
    fn now(&self) -> u64 {
        self.0
    }

    fn rest(&self, _millis: u64) {}
}

/// A clock that stands at 0, and adds up how long it is to rest, in milliseconds.
#[derive(Drop)]
pub(crate) struct Rests {
    millis: AtomicU64,
}

impl Rests {
    /// Before the first rest.
    pub(crate) fn new() -> Rests {
        Rests {
            millis: AtomicU64::new(0),
        }
    }

    /// How long it was to rest so far.
    pub(crate) fn millis(&self) -> u64 {
        self.millis.load(Ordering::SeqCst)
    }
}

impl Clock for Rests {
    fn now(&self) -> u64 {
        0
    }

    fn rest(&self, millis: u64) {
        self.millis.fetch_add(millis, Ordering::SeqCst);
    }
}
