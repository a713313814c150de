//! The worker that serves the session: its steps.

ghost use Rattle.std.specs.Prelude.{◌≡◌, All, None, true, false};
ghost use Rattle.turn_lock.specs.Seats.{IsSeatOf};
ghost use Rattle.session_feeds.specs.Marks.{IsNew};
ghost use Rattle.session_feeds.specs.Sessions.{AllSmall};
ghost use Rattle.session_delivery.specs.Delivering.{DeliverStep, Treated};
ghost use Rattle.session_delivery.specs.DeliverSteps.{Delivers, Treats};

use crate::deliver_end::{DeliverEnd, end_of_fault};
use crate::delivered::Delivered;
use crate::start_all::start_all;
use crate::verdicts::{note_finish_if, put_unless};
use chan_io::{Clock, Spawner};
use session_crews::{Crew, RunContext};
use session_feeds::{Feeder, Ids, REST_MILLIS, Session, Verdict};
use session_run::Gate;
use session_run::end_seat::look;
use session_run::shelf_seat::first;
use std::sync::Wait;
use std::thread::Threads;

/// The deliverer between its steps.
#[derive(Drop)]
pub struct Deliverer<W: Spawner, S, F: Feeder> {
    /// The session.
    pub session: S,
    /// Its seats, and the workers of feeders that it started.
    pub crew: Crew<W, F>,
    /// What it makes ids of.
    pub ids: Ids,
    /// Whether the session was begun.
    pub begun: bool,
    /// Whether a parcel may be taken now: the session is ready, or the end was seen closed.
    pub may_take: bool,
    /// Whether the end was seen closed when the session was last asked.
    pub closed: bool,
    /// Whether a put was stopped, so that no more are made.
    pub stopped: bool,
}

impl<W: Spawner + Send, S: Session> Deliverer<W, S, S::F> {
    /// Makes the next step: the session is begun, then asked whether it is ready, and given a
    /// parcel where it is.
    pub(crate) fn step<'s, 'e, R: Threads + Wait + Sync + 's, C: Clock + Sync + 's, G: Gate + 's>(
        &mut self,
        ctx: &RunContext<'s, 'e, R, C, G>,
        depth: u64,
    ) -> Delivered<W, S::F>
    where
        W: 's,
        S::F: 's,
        requires lock { IsSeatOf ctx.now.ends.now self.old.crew.end }
        requires shelf_lock { IsSeatOf ctx.now.shelf.now self.old.crew.shelf }
        requires begun { S.begun self.old.session ≡ self.old.begun }
        requires on { self.old.begun ≡ true → S.refused self.old.session ≡ None }
        ensures { (step : DeliverStep) × Delivers S.F.Feeder.told W.faults ctx.now.ends.now
            ctx.now.shelf.now S.stands S.out S.begun S.refused self.old step self.new result }
    {
        if !self.begun {
            return self.begin(ctx, depth);
        }
        if self.may_take {
            return self.take(ctx, depth);
        }
        self.ask(ctx, depth)
    }

    /// Begins the session, and carries out its verdict.
    fn begin<'s, 'e, R: Threads + Wait + Sync + 's, C: Clock + Sync + 's, G: Gate + 's>(
        &mut self,
        ctx: &RunContext<'s, 'e, R, C, G>,
        depth: u64,
    ) -> Delivered<W, S::F>
    where
        W: 's,
        S::F: 's,
        requires lock { IsSeatOf ctx.now.ends.now self.old.crew.end }
        requires shelf_lock { IsSeatOf ctx.now.shelf.now self.old.crew.shelf }
        requires begun { S.begun self.old.session ≡ false }
        requires new { self.old.begun ≡ false }
        ensures { (step : DeliverStep) × Delivers S.F.Feeder.told W.faults ctx.now.ends.now
            ctx.now.shelf.now S.stands S.out S.begun S.refused self.old step self.new result }
    {
        self.begun = true;
        match self.session.begin(ctx.clock.now()) {
            Ok(verdict) => self.treat(ctx, depth, verdict),
            Err(fault) => Delivered::Ends(end_of_fault(fault)),
        }
    }

    /// Asks whether the session is ready, looks whether the end is closed, and starts the feeders
    /// that this made. Where a parcel may not be taken yet, it rests.
    fn ask<'s, 'e, R: Threads + Wait + Sync + 's, C: Clock + Sync + 's, G: Gate + 's>(
        &mut self,
        ctx: &RunContext<'s, 'e, R, C, G>,
        depth: u64,
    ) -> Delivered<W, S::F>
    where
        W: 's,
        S::F: 's,
        requires lock { IsSeatOf ctx.now.ends.now self.old.crew.end }
        requires shelf_lock { IsSeatOf ctx.now.shelf.now self.old.crew.shelf }
        requires begun { S.begun self.old.session ≡ true }
        requires on { S.refused self.old.session ≡ None }
        requires later { self.old.begun ≡ true }
        requires waits { self.old.may_take ≡ false }
        ensures { (step : DeliverStep) × Delivers S.F.Feeder.told W.faults ctx.now.ends.now
            ctx.now.shelf.now S.stands S.out S.begun S.refused self.old step self.new result }
    {
        let (ready, feeders) = match self.session.ready() {
            Ok(made) => made,
            Err(fault) => return Delivered::Ends(end_of_fault(fault)),
        };
        self.closed = look(ctx.rt, ctx.ends, &mut self.crew.end).closed;
        self.may_take = ready | self.closed;
        if !self.may_take {
            ctx.clock.rest(REST_MILLIS);
        }
        start_all(ctx, depth, &mut self.crew, feeders)
    }

    /// Gives the session the first parcel of the shelf, and carries out its verdict. Where there is
    /// none, it ends if the end was seen closed, and rests if not.
    fn take<'s, 'e, R: Threads + Wait + Sync + 's, C: Clock + Sync + 's, G: Gate + 's>(
        &mut self,
        ctx: &RunContext<'s, 'e, R, C, G>,
        depth: u64,
    ) -> Delivered<W, S::F>
    where
        W: 's,
        S::F: 's,
        requires lock { IsSeatOf ctx.now.ends.now self.old.crew.end }
        requires shelf_lock { IsSeatOf ctx.now.shelf.now self.old.crew.shelf }
        requires begun { S.begun self.old.session ≡ true }
        requires on { S.refused self.old.session ≡ None }
        requires later { self.old.begun ≡ true }
        requires may { self.old.may_take ≡ true }
        ensures { (step : DeliverStep) × Delivers S.F.Feeder.told W.faults ctx.now.ends.now
            ctx.now.shelf.now S.stands S.out S.begun S.refused self.old step self.new result }
    {
        self.may_take = false;
        match first(ctx.rt, ctx.shelf, &mut self.crew.shelf) {
            Some(parcel) => match self.session.take(ctx.clock.now(), parcel) {
                Ok(verdict) => self.treat(ctx, depth, verdict),
                Err(fault) => Delivered::Ends(end_of_fault(fault)),
            },
            None => {
                if self.closed {
                    return Delivered::Ends(DeliverEnd::Closed);
                }
                ctx.clock.rest(REST_MILLIS);
                Delivered::On
            }
        }
    }

    /// Carries out a verdict: puts its items, notes a finish, and starts its feeders.
    fn treat<'s, 'e, R: Threads + Wait + Sync + 's, C: Clock + Sync + 's, G: Gate + 's>(
        &mut self,
        ctx: &RunContext<'s, 'e, R, C, G>,
        depth: u64,
        verdict: Verdict<S::F>,
    ) -> Delivered<W, S::F>
    where
        W: 's,
        S::F: 's,
        requires lock { IsSeatOf ctx.now.ends.now self.old.crew.end }
        requires shelf_lock { IsSeatOf ctx.now.shelf.now self.old.crew.shelf }
        requires small { AllSmall verdict.puts }
        requires fresh { All (λ f. IsNew (S.F.Feeder.told f)) verdict.feeders.items }
        ensures { (t : Treated) × Treats S.F.Feeder.told W.faults ctx.now.ends.now
            ctx.now.shelf.now self.old verdict t self.new result }
    {
        let Verdict {
            puts,
            last,
            feeders,
            finish,
        } = verdict;
        self.stopped = put_unless(
            ctx,
            &mut self.crew.end,
            &mut self.ids,
            self.stopped,
            puts,
            last,
        );
        note_finish_if(ctx, &mut self.crew.shelf, finish);
        start_all(ctx, depth, &mut self.crew, feeders)
    }
}
