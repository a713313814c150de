//! What is left on the shelf behind the join of all workers, and is given to the session.

ghost use Rattle.std.specs.Prelude.{◌≡◌, ◌||◌, ℕ, List, All, Some, [], false, true, map};
ghost use Rattle.std.specs.List.{flat_map, fold};
ghost use Rattle.turn_lock.specs.Seats.{IsSeatOf};
ghost use Rattle.session_run.specs.Adds.{AddsCalls};
ghost use Rattle.session_feeds.specs.Puts.{PutsPrefix, Trial, stopped_by, to_put, trial_calls};
ghost use Rattle.session_feeds.specs.Marks.{ComesBack, IsNew, times};
ghost use Rattle.session_feeds.specs.Sessions.{AllCameBack, AllSmall};
ghost use Rattle.session_delivery.specs.Answers.{marks_of};
ghost use Rattle.session_delivery.specs.declared.deliver_end.DeliverEnd.TheVariants as DeliverEnd;
ghost use Rattle.session_end.specs.Leftovers.{Answered, LeftStep};
ghost use Rattle.session_end.specs.Services.{Answers, Leaves, Serves};

use crate::delivering::Service;
use chan_io::Clock;
use chan_values::Items;
use session_crews::RunContext;
use session_delivery::DeliverEnd;
use session_feeds::{Ids, Session, SessionFault, Verdict, put_all};
use session_run::Held;
use session_run::shelf_seat::first;
use std::sync::Wait;
use std::sync::atomic::Ordering;
use turn_lock::Seat;

/// How far what is left was served.
#[derive(Clone, Copy, Debug)]
pub(crate) struct Progress {
    /// What ids are made of.
    pub ids: Ids,
    /// Whether a put was stopped, so that no more are made.
    pub stopped: bool,
    /// Which refusal the session answered, if it did.
    pub refused: Option<SessionFault>,
    /// Whether the last step was made.
    pub over: bool,
}

/// Gives what is left on the shelf to the session, up to a refusal, where the deliverer had found
/// the end closed. Answers the refusal.
pub(crate) fn serve_left<R: Wait, C: Clock, G, S: Session>(
    ctx: &RunContext<'_, '_, R, C, G>,
    service: &mut Service<S>,
    ended: Option<DeliverEnd>,
) -> Option<SessionFault>
    requires end { IsSeatOf ctx.now.ends.now service.old.end }
    requires shelf { IsSeatOf ctx.now.shelf.now service.old.shelf }
    requires begun { ended ≡ Some DeliverEnd.Closed → S.begun service.old.session ≡ true }
    requires on { ended ≡ Some DeliverEnd.Closed → S.refused service.old.session ≡ None }
    requires none_out { S.out service.old.session ≡ [] }
    ensures { Leaves S.stands S.out S.refused service.old ended service.new result }
{
    if ended == Some(DeliverEnd::Closed) {
        return service.serve(ctx);
    }
    None
}

impl<S: Session> Service<S> {
    /// Gives all that is left to the session, up to a refusal, and answers that.
    fn serve<R: Wait, C: Clock, G>(
        &mut self,
        ctx: &RunContext<'_, '_, R, C, G>,
    ) -> Option<SessionFault>
        requires end { IsSeatOf ctx.now.ends.now self.old.end }
        requires shelf { IsSeatOf ctx.now.shelf.now self.old.shelf }
        requires begun { S.begun self.old.session ≡ true }
        requires on { S.refused self.old.session ≡ None }
        requires none_out { S.out self.old.session ≡ [] }
        ensures { Leaves S.stands S.out S.refused self.old (Some DeliverEnd.Closed) self.new
            result }
    {
        let mut progress = Progress {
            ids: Ids::new(ctx.base, ctx.numbers.fetch_add(1, Ordering::SeqCst)),
            stopped: false,
            refused: None,
            over: false,
        };
        for _ in ctx.rt.forever() {
            self.step(ctx, &mut progress);
            if progress.over {
                return progress.refused;
            }
        }
        unreachable!()
    }

    /// Gives the first parcel that is left to the session.
    fn step<R: Wait, C: Clock, G>(
        &mut self,
        ctx: &RunContext<'_, '_, R, C, G>,
        progress: &mut Progress,
    )
        requires end { IsSeatOf ctx.now.ends.now self.old.end }
        requires shelf { IsSeatOf ctx.now.shelf.now self.old.shelf }
        requires begun { S.begun self.old.session ≡ true }
        requires on { S.refused self.old.session ≡ None }
        requires none_out { S.out self.old.session ≡ [] }
        requires unrefused { progress.old.refused ≡ None }
        requires goes_on { progress.old.over ≡ false }
        ensures { (step : LeftStep) × Serves S.stands S.out S.begun S.refused self.old
            progress.old step self.new progress.new }
    {
        match first(ctx.rt, ctx.shelf, &mut self.shelf) {
            Some(parcel) => match self.session.take(ctx.clock.now(), parcel) {
                Ok(verdict) => self.answer(ctx, progress, verdict),
                Err(fault) => {
                    progress.refused = Some(fault);
                    progress.over = true;
                }
            },
            None => progress.over = true,
        }
    }

    /// Puts in the items of a verdict, unless a put was stopped, and gives its feeders back.
    fn answer<R: Wait, C: Clock, G>(
        &mut self,
        ctx: &RunContext<'_, '_, R, C, G>,
        progress: &mut Progress,
        verdict: Verdict<S::F>,
    )
        requires end { IsSeatOf ctx.now.ends.now self.old.end }
        requires small { AllSmall verdict.puts }
        requires out { S.out self.old.session ≡ marks_of S.F.Feeder.told verdict.feeders.items }
        requires fresh { All (λ f. IsNew (S.F.Feeder.told f)) verdict.feeders.items }
        ensures { (a : Answered) × Answers S.stands S.out S.begun S.refused
            S.F.Feeder.told self.old progress.old verdict a self.new progress.new }
    {
        let Verdict {
            puts,
            last,
            feeders,
            finish: _,
        } = verdict;
        put_unless(ctx, &mut self.end, progress, puts, last);
        give_back(&mut self.session, feeders);
    }
}

/// Puts in items, unless a put was stopped before.
fn put_unless<R: Wait, C: Clock, G>(
    ctx: &RunContext<'_, '_, R, C, G>,
    end: &mut Seat<Held>,
    progress: &mut Progress,
    items: Items,
    last: bool,
)
    requires lock { IsSeatOf ctx.now.ends.now end.old }
    requires small { AllSmall items }
    ensures { (trials : List Trial) × record {
      calls : AddsCalls end.old (flat_map trial_calls trials) end.new;
      after : progress.new.stopped ≡ (progress.old.stopped || fold stopped_by false trials);
      tried : progress.old.stopped ≡ false
          → PutsPrefix (to_put last items) trials (fold stopped_by false trials);
      skipped : progress.old.stopped ≡ true → trials ≡ [];
      refused : progress.new.refused ≡ progress.old.refused;
      over : progress.new.over ≡ progress.old.over;
    } }
{
    if progress.stopped {
        return;
    }
    progress.stopped = put_all(
        ctx.rt,
        ctx.ends,
        end,
        ctx.clock,
        &mut progress.ids,
        items.into_vec(),
        last,
    );
}

/// Gives feeders back to their session that were not started.
fn give_back<S: Session>(session: &mut S, mut feeders: Vec<S::F>)
    requires { (after : ℕ → ℕ)
        × ComesBack (times (S.out session.old)) (map S.F.Feeder.told feeders.items) after }
    ensures out { (after : ℕ → ℕ)
        → ComesBack (times (S.out session.old)) (map S.F.Feeder.told feeders.items) after
        → (q : ℕ) → times (S.out session.new) q ≡ after q }
    ensures stands { AllCameBack (S.stands session.old) (map S.F.Feeder.told feeders.items)
        (S.stands session.new) }
    ensures begun { S.begun session.new ≡ S.begun session.old }
    ensures refused { S.refused session.new ≡ S.refused session.old }
{
    while !feeders.is_empty() {
        session.back(feeders.remove(0));
    }
}
