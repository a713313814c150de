//! What is left of `--drop-after`.

use std::sync::atomic::{AtomicU64, Ordering};

/// What is left until a connection is dropped. No clause speaks of it.
#[derive(Drop)]
pub struct Drops {
    left: AtomicU64,
}

impl Drops {
    /// A drop at the call of this number, from 1; at 0 at none.
    pub fn new(after: u64) -> Drops {
        Drops {
            left: AtomicU64::new(after),
        }
    }

    /// Whether the drop is due: true at that one call alone.
    pub fn is_due(&self) -> bool {
        for _ in 0..u64::MAX {
            let left = self.left.load(Ordering::SeqCst);
            if left == 0 {
                return false;
            }
            let changed = self
                .left
                .compare_exchange(left, left - 1, Ordering::SeqCst, Ordering::SeqCst);
            if changed.is_ok() {
                return left == 1;
            }
        }
        false
    }
}
