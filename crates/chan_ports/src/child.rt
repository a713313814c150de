//! A child that was started, and the streams of this process.

/// A child with its pipes.
#[derive(Debug, Drop)]
pub struct Child<A, B, C, T> {
    /// What it reads from.
    pub stdin: A,
    /// What it writes.
    pub stdout: B,
    /// What it reports.
    pub stderr: C,
    /// Its end, with its status.
    pub end: T,
}

/// The three streams of this process.
#[derive(Debug, Drop)]
pub struct Local<I, O, X> {
    /// What the user types.
    pub input: I,
    /// What the user reads.
    pub output: O,
    /// What is reported to the user.
    pub errors: X,
}
