//! The mark at which the workers of a relay end.

use std::sync::atomic::{AtomicBool, Ordering};

/// The mark of a relay. A worker that ends with a refusal sets it, so that the others end too. No
/// clause speaks of it.
#[derive(Drop)]
pub struct Mark {
    is_set: AtomicBool,
}

impl Mark {
    /// A mark that is not set.
    pub fn new() -> Mark {
        Mark {
            is_set: AtomicBool::new(false),
        }
    }

    /// Sets it.
    pub fn set(&self) {
        self.is_set.store(true, Ordering::SeqCst);
    }

    /// Whether it is set.
    pub fn is_set(&self) -> bool {
        self.is_set.load(Ordering::SeqCst)
    }
}
