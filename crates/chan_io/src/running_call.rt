//! Closures that were started.

use crate::called::{AnswerKeeps, Called};
use std::thread::{Promise, PromisedHandle, Threads};

/// Where a started closure is.
#[derive(Drop)]
pub enum CallWork<T, P: Promise<T>> {
    /// A thread calls it.
    Thread(PromisedHandle<Called<T>, AnswerKeeps<P>>),
    /// It was called by its start.
    Finished(T),
}

/// A closure that was started and is still to be joined.
#[derive(Drop)]
pub struct RunningCall<T, P: Promise<T>> {
    /// Where the closure is.
    pub work: CallWork<T, P>,
}

impl<T, P: Promise<T>> RunningCall<T, P> {
    ghost use Rattle.std.specs.Prelude.{◌≡◌};
    ghost use Rattle.chan_io.specs.Calls.{IsCallOf};

    /// Waits for the end of the call.
    pub fn join<R: Threads>(self, rt: &R) -> T
        ensures { (p : P) → IsCallOf P.kept_by p self → P.kept_by p result }
    {
        let RunningCall { work } = self;
        match work {
            CallWork::Thread(handle) => handle.join(rt).answer,
            CallWork::Finished(done) => done,
        }
    }
}
