//! What a thread gives that was to call a closure.

use std::thread::Promise;

/// What the thread of a closure gives.
#[derive(Debug, Drop)]
pub struct Called<T> {
    /// Whether the closure was called with `true`.
    pub runs: bool,
    /// What it answered.
    pub answer: T,
}

/// The promise that the answer of a closure keeps another promise.
#[derive(Drop)]
pub struct AnswerKeeps<P> {
    /// The promise that the answer keeps.
    pub promise: P,
}

impl<T, P: Promise<T>> Promise<Called<T>> for AnswerKeeps<P> {
    ghost kept_by = { λ p called. P.kept_by p.promise called.answer };
}
