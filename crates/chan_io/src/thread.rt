//! A thread for a job.

ghost use Rattle.std.specs.Prelude.{◌≡◌, Bool, true, false, IfOk, IfErr};
ghost use Rattle.chan_io.specs.Jobs.{IsRunOf};
ghost use Rattle.chan_io.specs.Calls.{IsCallOf};
ghost use Rattle.chan_io.specs.Ends.{EndsWell};

use crate::called::{AnswerKeeps, Called};
use crate::ended::{Ended, MayEnd};
use crate::job::Job;
use crate::running::{Running, Work};
use crate::running_call::{CallWork, RunningCall};
use std::alloc::Global;
use std::marker::PhantomData;
use std::snapshot::Snapshot;
use std::sync::Arc;
use std::sync::atomic::{AtomicBool, Ordering};
use std::thread::{Promise, Scope};

/// What a thread and its starter share. It is set where no thread could be made.
type Flag = Arc<AtomicBool, Global>;

/// Starts a thread for the job. Where none can be made, the job comes back.
pub(crate) fn start_thread<'s, 'e, J: Job + 's>(
    alloc: Global,
    scope: &'s Scope<'s, &'e ()>,
    job: J,
) -> Result<Running<'s, J>, J>
    ensures started { IfOk result (λ r. IsRunOf J.may_end job r) }
    ensures back { IfErr result (λ j. j ≡ job) }
{
    let Some((refused, theirs)) = shared_flag(alloc) else {
        return Err(job);
    };
    let promise = MayEnd {
        job: Snapshot::of(&job),
    };
    let run = move || -> Ended<J, J::Done>
        ensures { EndsWell J.may_end job result }
    {
        if theirs.load(Ordering::SeqCst) {
            Ended::Back(job)
        } else {
            Ended::Done(job.run())
        }
    };
    let work = match scope.spawn_with(promise, run) {
        Ok(handle) => Work::Thread(handle),
        Err(error) => {
            refused.store(true, Ordering::SeqCst);
            match (error.value)() {
                Ended::Back(job) => return Err(job),
                Ended::Done(done) => Work::Finished(done),
            }
        }
    };
    Ok(Running {
        work,
        scope: PhantomData,
    })
}

/// Starts a thread that calls the closure. Where none can be made, `Err` has the closure's answer to
/// `false`, given here.
pub(crate) fn call_in_thread<
    's,
    'e,
    T: Send + Drop + 's,
    F: FnOnce(bool) -> T + Send + Drop + 's,
    P: Promise<T> + Drop + 's,
>(alloc: Global, scope: &'s Scope<'s, &'e ()>, promise: P, call: F) -> Result<RunningCall<T, P>, T>
    requires runs { (b : Bool) → F.pre call b }
    requires keeps { (b : Bool) (r : T) → F.post call b r → P.kept_by promise r }
    ensures started { IfOk result (IsCallOf P.kept_by promise) }
    ensures back { IfErr result (λ r. F.post call false r) }
{
    let Some((refused, theirs)) = shared_flag(alloc) else {
        return Err(call(false));
    };
    let run = move || -> Called<T>
        requires { (b : Bool) → F.pre call b }
        ensures { F.post call result.runs result.answer }
    {
        let runs = !theirs.load(Ordering::SeqCst);
        let answer = call(runs);
        Called { runs, answer }
    };
    match scope.spawn_with(AnswerKeeps { promise }, run) {
        Ok(handle) => Ok(RunningCall {
            work: CallWork::Thread(handle),
        }),
        Err(error) => {
            refused.store(true, Ordering::SeqCst);
            let Called { runs, answer } = (error.value)();
            if runs {
                return Ok(RunningCall {
                    work: CallWork::Finished(answer),
                });
            }
            Err(answer)
        }
    }
}

/// The two ends of a flag that is not set; none where there is no memory.
fn shared_flag(alloc: Global) -> Option<(Flag, Flag)> {
    let flag = Arc::new(alloc, AtomicBool::new(false)).ok()?;
    let theirs = Arc::try_clone(&flag).ok()?;
    Some((flag, theirs))
}
