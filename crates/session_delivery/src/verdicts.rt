//! What a verdict asks for, but for its feeders.

ghost use Rattle.std.specs.Prelude.{◌≡◌, ◌||◌, List, [], true, false};
ghost use Rattle.std.specs.List.{flat_map, fold};
ghost use Rattle.turn_lock.specs.Seats.{IsSeatOf};
ghost use Rattle.session_run.specs.Adds.{AddsCalls};
ghost use Rattle.session_feeds.specs.Puts.{PutsPrefix, Trial, stopped_by, to_put, trial_calls};
ghost use Rattle.session_feeds.specs.Sessions.{AllSmall};
ghost use Rattle.session_delivery.specs.Delivering.{finishing};

use chan_io::Clock;
use chan_values::Items;
use session_crews::RunContext;
use session_feeds::{Ids, put_all};
use session_run::shelf_seat::note_finish;
use session_run::{Held, Shelf};
use std::sync::Wait;
use turn_lock::Seat;

/// Puts in the items of a verdict, unless a put was stopped before. Answers whether one was
/// stopped.
pub(crate) fn put_unless<R: Wait, C: Clock, G>(
    ctx: &RunContext<'_, '_, R, C, G>,
    end: &mut Seat<Held>,
    ids: &mut Ids,
    stopped: bool,
    items: Items,
    last: bool,
) -> bool
    requires lock { IsSeatOf ctx.now.ends.now end.old }
    requires small { AllSmall items }
    ensures { (trials : List Trial) × record {
      calls : AddsCalls end.old (flat_map trial_calls trials) end.new;
      after : result ≡ (stopped || fold stopped_by false trials);
      tried : stopped ≡ false
          → PutsPrefix (to_put last items) trials (fold stopped_by false trials);
      skipped : stopped ≡ true → trials ≡ [];
    } }
{
    if stopped {
        return true;
    }
    put_all(
        ctx.rt,
        ctx.ends,
        end,
        ctx.clock,
        ids,
        items.into_vec(),
        last,
    )
}

/// Notes that the session is to finish, where its verdict says so.
pub(crate) fn note_finish_if<R: Wait, C: Clock, G>(
    ctx: &RunContext<'_, '_, R, C, G>,
    shelf: &mut Seat<Shelf>,
    finish: bool,
)
    requires { IsSeatOf ctx.now.shelf.now shelf.old }
    ensures { AddsCalls shelf.old (finishing finish) shelf.new }
{
    if finish {
        note_finish(ctx.rt, ctx.shelf, shelf, ctx.clock, false);
    }
}
