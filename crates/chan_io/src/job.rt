//! Work for a thread.

/// Work for a thread of its own. It holds all that it needs, the runtime among it.
pub trait Job: Send + Drop {
    /// What it ends with.
    type Done: Send + Drop;

    /// Whether the job may end with this.
    ghost may_end: { Self → Self.Done → Type 0 };

    /// Does the work.
    fn run(self) -> Self::Done
        ensures { may_end self result };
}
