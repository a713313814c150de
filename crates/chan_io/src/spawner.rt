//! What starts jobs.

ghost use Rattle.std.specs.Prelude.{◌≡◌, ◌≤◌, ℕ, Bool, false, IfOk, IfErr, OnOk, OnErr};
ghost use Rattle.chan_io.specs.Faults.{Merges, Rises};
ghost use Rattle.chan_io.specs.Calls.{IsCallOf};
ghost use Rattle.chan_io.specs.Jobs.{IsRunOf};
ghost use Rattle.chan_io.specs.Starts.{Chooses};

use crate::job::Job;
use crate::running::{Running, Work};
use crate::running_call::{CallWork, RunningCall};
use crate::start::{NoThread, Start};
use crate::thread::{call_in_thread, start_thread};
use std::marker::PhantomData;
use std::thread::{Promise, Scope, Threads};

/// What starts jobs. An implementation chooses how, and counts; the starts themselves are given here,
/// since what is sent to a thread rests on bounds that an implementation may not assume.
pub trait Spawner: Sized + Send + Drop {
    /// How many starts failed, up to 2^64 - 1.
    ghost faults: { Self → ℕ };

    /// Whether it may choose a thread.
    ghost makes_threads: { Self → Type 0 };

    /// Chooses how the next start is carried out.
    fn choose(&mut self) -> Start
        ensures chooses { Chooses (makes_threads self.new)
            (faults self.old) result (faults self.new) }
        ensures counted { faults self.old ≤ faults self.new };

    /// Counts a start for which no thread could be made.
    fn refused(&mut self, none: NoThread)
        ensures rises { makes_threads self.old → Rises (faults self.old) (faults self.new) }
        ensures counted { faults self.old ≤ faults self.new };

    /// A spawner for a worker that starts others.
    fn twin(&self) -> Self
        ensures { faults result ≡ 0 };

    /// Takes a twin back.
    fn merge(&mut self, twin: Self)
        ensures merges { Merges (faults self.old) (faults twin) (faults self.new) }
        ensures counted { faults self.old ≤ faults self.new };

    /// Starts the job. Where it can't be started it is handed back.
    final fn start<'s, 'e, R: Threads + Sync, J: Job + 's>(
        &mut self,
        _rt: &'s R,
        scope: &'s Scope<'s, &'e ()>,
        job: J,
    ) -> Result<Running<'s, J>, J>
        ensures started { IfOk result (λ r. IsRunOf J.may_end job r) }
        ensures back { IfErr result (λ j. j ≡ job) }
        ensures steady { OnOk result (faults self.new ≡ faults self.old) }
        ensures failed { OnErr result (Rises (faults self.old) (faults self.new)) }
        ensures counted { faults self.old ≤ faults self.new }
    {
        match self.choose() {
            Start::Thread(alloc) => {
                let started = start_thread(alloc, scope, job);
                if started.is_err() {
                    self.refused(NoThread { made: () });
                }
                started
            }
            Start::Late => Ok(Running {
                work: Work::Here(job),
                scope: PhantomData,
            }),
            Start::Fail => Err(job),
        }
    }

    /// Starts a call of the closure, which is to work at `true` and to give its parts back at `false`.
    /// Where it was started the answer at its join keeps the promise; no clause says to which of them
    /// it is the answer. Where it wasn't, `Err` has the answer to `false`, given here.
    final fn start_call<
        's,
        'e,
        R: Threads + Sync,
        T: Send + Drop + 's,
        F: FnOnce(bool) -> T + Send + Drop + 's,
        P: Promise<T> + Drop + 's,
    >(
        &mut self,
        _rt: &'s R,
        scope: &'s Scope<'s, &'e ()>,
        promise: P,
        call: F,
    ) -> Result<RunningCall<T, P>, T>
        requires runs { (b : Bool) → F.pre call b }
        requires keeps { (b : Bool) (r : T) → F.post call b r → P.kept_by promise r }
        ensures started { IfOk result (IsCallOf P.kept_by promise) }
        ensures back { IfErr result (λ r. F.post call false r) }
        ensures steady { OnOk result (faults self.new ≡ faults self.old) }
        ensures failed { OnErr result (Rises (faults self.old) (faults self.new)) }
        ensures counted { faults self.old ≤ faults self.new }
    {
        match self.choose() {
            Start::Thread(alloc) => {
                let started = call_in_thread(alloc, scope, promise, call);
                if started.is_err() {
                    self.refused(NoThread { made: () });
                }
                started
            }
            Start::Late => Ok(RunningCall {
                work: CallWork::Finished(call(true)),
            }),
            Start::Fail => Err(call(false)),
        }
    }
}
