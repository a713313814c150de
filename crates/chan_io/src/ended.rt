//! What a thread gives that was to run a job.

use crate::job::Job;
use std::snapshot::Snapshot;
use std::thread::Promise;

/// What the thread of a job gives.
#[derive(Debug, Drop)]
pub enum Ended<J, D> {
    /// What the job ended with.
    Done(D),
    /// The job itself, which was not run.
    Back(J),
}

/// The promise that a job ends with what it may end with, or comes back as it was.
#[derive(Drop)]
pub struct MayEnd<J> {
    /// The job as it was when it was started.
    pub job: Snapshot<J>,
}

impl<J: Job> Promise<Ended<J, J::Done>> for MayEnd<J> {
    ghost use Rattle.chan_io.specs.Ends.{EndsWell};

    ghost kept_by = { λ p e. EndsWell J.may_end p.job.value e };
}
