//! Time.

/// Moments in milliseconds, and rests. Nothing is promised of either.
pub trait Clock {
    /// The moment.
    fn now(&self) -> u64;

    /// Rests for about so long, or less: a rest may end early, as after a `wake`.
    fn rest(&self, millis: u64);

    /// Says that there is work, so that those who rest may look for it. It does nothing unless an
    /// implementation says so.
    fn wake(&self) {}
}
