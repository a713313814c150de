//! What ends rests early.
//!
//! Those who rest sleep on a word. A ring adds one to it and wakes them all. A wake is paid for: each
//! sleeper costs `WAKE_NANOS`, and no more than `BURST_NANOS` may be owed, so that many who rest for
//! nothing do not slow down those who work. Shortly after a ring a rest is short, which covers what
//! comes up between the look for work and the sleep. All durations are nanoseconds.

use std::sync::Wait;
use std::sync::atomic::{AtomicU64, Ordering};
use std::time::Duration;

/// What the wake of one sleeper costs.
const WAKE_NANOS: u64 = 8_000;

/// How much may be owed for wakes.
const BURST_NANOS: u64 = 10_000_000;

/// How long after a ring rests are short.
const HOT_NANOS: u64 = 5_000_000;

/// The bell of one clock.
#[derive(Debug, Drop)]
pub(crate) struct Bell {
    // The number of rings; its low 32 bits are what sleepers compare.
    rung: AtomicU64,
    sleepers: AtomicU64,
    // When it rang last.
    last: AtomicU64,
    // Until when the wakes so far are paid for.
    paid: AtomicU64,
}

impl Bell {
    /// A bell that did not ring yet.
    pub(crate) const fn new() -> Bell {
        Bell {
            rung: AtomicU64::new(0),
            sleepers: AtomicU64::new(0),
            last: AtomicU64::new(0),
            paid: AtomicU64::new(0),
        }
    }

    /// Ends the rests that are under way, where the wakes before are paid for.
    pub(crate) fn ring(&self, now: u64) {
        self.last.store(now, Ordering::SeqCst);
        self.rung.fetch_add(1, Ordering::SeqCst);
        let sleepers = self.sleepers.load(Ordering::SeqCst);
        if sleepers == 0 {
            return;
        }
        let paid = self.paid.load(Ordering::SeqCst).max(now);
        if paid.saturating_sub(now) > BURST_NANOS {
            return;
        }
        let cost = sleepers.saturating_mul(WAKE_NANOS);
        self.paid.store(paid.saturating_add(cost), Ordering::SeqCst);
        self.rung.wake_all();
    }

    /// Sleeps until a ring, or for so long.
    pub(crate) fn rest<R: Wait>(&self, rt: &R, now: u64, whole: Duration) {
        let seen = self.rung.load(Ordering::SeqCst);
        let since = now.saturating_sub(self.last.load(Ordering::SeqCst));
        let sleepers = self.sleepers.fetch_add(1, Ordering::SeqCst);
        let time = nap(since, sleepers, whole);
        self.rung
            .park_timeout(rt, (seen & 0xffff_ffff) as u32, time);
        self.sleepers.fetch_sub(1, Ordering::SeqCst);
    }
}

/// How long a rest is, so long after the last ring and beside so many that rest.
fn nap(since: u64, sleepers: u64, whole: Duration) -> Duration {
    if since > HOT_NANOS {
        return whole;
    }
    let share = sleepers.saturating_add(1).saturating_mul(WAKE_NANOS);
    Duration::from_nanos(share.max(since / 2)).min(whole)
}
