//! What a deliverer does as it ends, before it joins the workers that it started.

ghost use Rattle.std.specs.Prelude.{◌≡◌, ℕ, List, All, true};
ghost use Rattle.channel_core.specs.declared.call.EndAnswer.{EndAnswer};
ghost use Rattle.channel_core.specs.declared.call.EndCall.{EndCall};
ghost use Rattle.turn_lock.specs.Seats.{IsSeatOf};
ghost use Rattle.session_run.specs.Adds.{AddsCalls};
ghost use Rattle.session_run.specs.declared.shelf_call.ShelfAnswer.{ShelfAnswer};
ghost use Rattle.session_run.specs.declared.shelf_call.ShelfCall.{ShelfCall};
ghost use Rattle.session_crews.specs.Crews.{IsOut, Joins, promises};
ghost use Rattle.session_crews.specs.FeedTurns.{FeedPart};
ghost use Rattle.session_crews.specs.Seats.{EndSeat, ShelfSeat};
ghost use Rattle.session_delivery.specs.Answers.{HasCrew, HasStartCause, ended_by, feeders_left};
ghost use Rattle.session_delivery.specs.Delivering.{closing_deliverer, noting_deliverer};
ghost use Rattle.session_delivery.specs.Deliveries.{own_delivery, refusals_of};

use crate::deliver_end::DeliverEnd;
use crate::delivered::Delivered;
use chan_io::{Clock, RunningCall, Spawner};
use session_crews::{Crew, FeedDone, Feeders, FromFeeder, Refusals, RunContext, absorb};
use session_feeds::Feeder;
use session_run::end_seat::close;
use session_run::shelf_seat::note_finish;
use session_run::{Held, Shelf};
use std::sync::Wait;
use turn_lock::Seat;

/// What a deliverer has that made its last step.
#[derive(Drop)]
pub(crate) struct Leaving<W: Spawner, F: Feeder> {
    /// What it ends with itself.
    pub done: FeedDone<W, F>,
    /// The workers that it started and did not join yet.
    pub running: Vec<(RunningCall<FeedDone<W, F>, FromFeeder<F>>, FromFeeder<F>)>,
    /// The feeders that were not started.
    pub left: Vec<F>,
}

/// Notes a fault, closes the end where the deliverer ends with a refusal, so that the workers end
/// that it started, and takes in what came back of a start.
pub(crate) fn leave<R: Wait, C: Clock, G, W: Spawner, F: Feeder>(
    ctx: &RunContext<'_, '_, R, C, G>,
    crew: Crew<W, F>,
    last: Delivered<W, F>,
) -> Leaving<W, F>
    requires { (end0 : EndSeat) × (shelf0 : ShelfSeat) × (calls : List (EndCall × EndAnswer))
        × (shelf_calls : List (ShelfCall × ShelfAnswer)) × (marks : List ℕ)
        × HasCrew F.told W.faults ctx.now.ends.now ctx.now.shelf.now end0 shelf0 calls shelf_calls
        marks crew last }
    ensures lock { IsSeatOf ctx.now.ends.now result.done.end }
    ensures shelf_lock { IsSeatOf ctx.now.shelf.now result.done.shelf }
    ensures started { result.done.started ≡ true }
    ensures out { All (IsOut F.told W.faults ctx.now.ends.now ctx.now.shelf.now)
        result.running.items }
    ensures left { result.left.items ≡ feeders_left last }
    ensures joins { (end0 : EndSeat) (shelf0 : ShelfSeat) (calls : List (EndCall × EndAnswer))
        (shelf_calls : List (ShelfCall × ShelfAnswer)) (marks : List ℕ)
        → HasCrew F.told W.faults ctx.now.ends.now ctx.now.shelf.now end0 shelf0 calls shelf_calls
        marks crew last
        → HasStartCause (W.faults crew.spawner) last
        → (parts : List FeedPart)
        × Joins F.told W.faults
        (own_delivery end0 shelf0 calls shelf_calls marks (ended_by last))
        (promises result.running.items) parts result.done }
{
    let ended = last.ended();
    let Crew {
        mut end,
        mut shelf,
        spawner,
        running,
    } = crew;
    note_fault(ctx, &mut shelf, ended);
    close_unless_closed(ctx, &mut end, ended);
    let mut done = FeedDone {
        end,
        shelf,
        spawner,
        feeders: Feeders::none(ctx.alloc),
        refusals: refusals_of(ended),
        started: true,
    };
    match last {
        Delivered::On | Delivered::Ends(_) => Leaving {
            done,
            running,
            left: Vec::new(ctx.alloc),
        },
        Delivered::NoRoom(left) => Leaving {
            done,
            running,
            left,
        },
        Delivered::Refused(back, _, left) => {
            absorb(ctx, &mut done, back);
            Leaving {
                done,
                running,
                left,
            }
        }
    }
}

/// The refusals of memory and of threads with which a deliverer ends.
fn refusals_of(ended: Option<DeliverEnd>) -> Refusals
    ensures { result ≡ refusals_of ended }
{
    let mut all = Refusals::NONE;
    match ended {
        Some(DeliverEnd::NoMemory) => all.no_memory = true,
        Some(DeliverEnd::NoThread) => all.no_thread = true,
        Some(DeliverEnd::Closed) | Some(DeliverEnd::Fault(_)) | None => {}
    }
    all
}

/// Notes that the deliverer met a fault of the session.
fn note_fault<R: Wait, C: Clock, G>(
    ctx: &RunContext<'_, '_, R, C, G>,
    shelf: &mut Seat<Shelf>,
    ended: Option<DeliverEnd>,
)
    requires { IsSeatOf ctx.now.shelf.now shelf.old }
    ensures { AddsCalls shelf.old (noting_deliverer ended) shelf.new }
{
    if let Some(DeliverEnd::Fault(_)) = ended {
        note_finish(ctx.rt, ctx.shelf, shelf, ctx.clock, true);
    }
}

/// Closes the end where the deliverer ended otherwise than at a closed end.
fn close_unless_closed<R: Wait, C: Clock, G>(
    ctx: &RunContext<'_, '_, R, C, G>,
    end: &mut Seat<Held>,
    ended: Option<DeliverEnd>,
)
    requires { IsSeatOf ctx.now.ends.now end.old }
    ensures { AddsCalls end.old (closing_deliverer ended) end.new }
{
    match ended {
        None => {}
        Some(DeliverEnd::Closed) => {}
        Some(_) => close(ctx.rt, ctx.ends, end, ctx.clock),
    }
}
