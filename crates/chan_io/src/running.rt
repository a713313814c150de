//! Jobs that were started.

use crate::ended::{Ended, MayEnd};
use crate::job::Job;
use std::marker::PhantomData;
use std::thread::{PromisedHandle, Threads};

/// Where a started job is.
#[derive(Drop)]
pub enum Work<J: Job> {
    /// A thread runs it, or gives it back.
    Thread(PromisedHandle<Ended<J, J::Done>, MayEnd<J>>),
    /// The join runs it.
    Here(J),
    /// It was run by its start.
    Finished(J::Done),
}

/// A job that was started and is still to be joined.
#[derive(Drop)]
pub struct Running<'s, J: Job> {
    /// Where the job is.
    pub work: Work<J>,
    /// The scope of its thread.
    pub scope: PhantomData<&'s ()>,
}

impl<'s, J: Job> Running<'s, J> {
    ghost use Rattle.std.specs.Prelude.{◌≡◌};
    ghost use Rattle.chan_io.specs.Jobs.{IsRunOf};

    /// Waits for the end of the job. One that was not run yet is run here.
    pub fn join<R: Threads>(self, rt: &R) -> J::Done
        ensures { (j : J) → IsRunOf J.may_end j self.entry → J.may_end j result }
    {
        let Running { work, scope: _ } = self;
        match work {
            Work::Thread(handle) => match handle.join(rt) {
                Ended::Done(done) => done,
                Ended::Back(job) => job.run(),
            },
            Work::Here(job) => job.run(),
            Work::Finished(done) => done,
        }
    }
}
