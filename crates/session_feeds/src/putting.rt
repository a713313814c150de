//! Puts of items, each again and again while the window is full.

ghost use Rattle.std.specs.Prelude.{◌≡◌, ◌≤◌, List, [], ◌∷◌, length, not};
ghost use Rattle.std.specs.List.{flat_map};
ghost use Rattle.chan_values.specs.Limits.{max_payload};
ghost use Rattle.channel_core.specs.declared.call.EndAnswer.TheVariants as EndAnswer;
ghost use Rattle.turn_lock.specs.Seats.{IsSeatOf};
ghost use Rattle.session_run.specs.Adds.{AddsCalls};
ghost use Rattle.session_run.specs.Kinds.{HandsBack};
ghost use Rattle.session_feeds.specs.Puts.{IsAnswerOnce, IsLast, PutsPrefix, Trial, answer_once, is_stop, put_call, to_put, trial_calls};
ghost use Rattle.session_feeds.specs.Sessions.{AllSmall};

use crate::ids::Ids;
use chan_io::Clock;
use chan_values::Item;
use channel_core::Put;
use session_run::Held;
use session_run::end_seat::{put, put_last};
use std::sync::Wait;
use turn_lock::{Seat, TurnLock};

/// How long a worker rests that finds nothing to do, in milliseconds.
pub const REST_MILLIS: u64 = 5;

/// Puts in an item once, as the last of its direction or not.
fn put_as<R: Wait, C: Clock>(
    rt: &R,
    ends: &TurnLock<Held>,
    seat: &mut Seat<Held>,
    clock: &C,
    item: Item,
    last: bool,
    id: [u8; 16],
    now: u64,
) -> Put
    requires lock { IsSeatOf ends.now seat.old }
    requires small { length item.payload ≤ max_payload }
    ensures calls { AddsCalls seat.old
        ((put_call last item id now, EndAnswer.Put result) ∷ []) seat.new }
    ensures back { HandsBack item result }
{
    if last {
        return put_last(rt, ends, seat, clock, item, id, now);
    }
    put(rt, ends, seat, clock, item, id, now)
}

/// Puts in an item once. It comes back alone where the window is full.
fn put_once<R: Wait, C: Clock>(
    rt: &R,
    ends: &TurnLock<Held>,
    seat: &mut Seat<Held>,
    clock: &C,
    item: Item,
    last: bool,
    id: [u8; 16],
    now: u64,
) -> Result<Put, Item>
    requires lock { IsSeatOf ends.now seat.old }
    requires small { length item.payload ≤ max_payload }
    ensures calls { AddsCalls seat.old
        ((put_call last item id now, EndAnswer.Put (answer_once result)) ∷ []) seat.new }
    ensures back { IsAnswerOnce item result }
{
    match put_as(rt, ends, seat, clock, item, last, id, now) {
        Put::Seq(seq) => Ok(Put::Seq(seq)),
        Put::Closed(item) => Ok(Put::Closed(item)),
        Put::Past(item) => Ok(Put::Past(item)),
        Put::Spent(item) => Ok(Put::Spent(item)),
        Put::Full(item) => Err(item),
    }
}

/// Puts in an item until it gets a number or a stop, and rests while the window is full. A put at a
/// closed end is stopped.
pub fn put_item<R: Wait, C: Clock>(
    rt: &R,
    ends: &TurnLock<Held>,
    seat: &mut Seat<Held>,
    clock: &C,
    ids: &mut Ids,
    mut item: Item,
    last: bool,
) -> Put
    requires lock { IsSeatOf ends.now seat.old }
    requires small { length item.payload ≤ max_payload }
    ensures { (trial : Trial) × record {
      item : trial.item ≡ item;
      as_last : trial.as_last ≡ last;
      answer : trial.answer ≡ result;
      is_last : IsLast trial.item trial.answer;
      calls : AddsCalls seat.old (trial_calls trial) seat.new;
    } }
{
    for _ in rt.forever() {
        let id = ids.next();
        match put_once(rt, ends, seat, clock, item, last, id, clock.now()) {
            Ok(put) => return put,
            Err(back) => {
                item = back;
                clock.rest(REST_MILLIS);
            }
        }
    }
    unreachable!()
}

/// Puts in items in order, each until it gets a number, up to the first that is stopped; with
/// `last`, the last of them as the last of its direction. Answers whether one was stopped.
pub fn put_all<R: Wait, C: Clock>(
    rt: &R,
    ends: &TurnLock<Held>,
    seat: &mut Seat<Held>,
    clock: &C,
    ids: &mut Ids,
    items: Vec<Item>,
    last: bool,
) -> bool
    requires lock { IsSeatOf ends.now seat.old }
    requires small { AllSmall items.items }
    ensures { (trials : List Trial) × record {
      puts : PutsPrefix (to_put last items.items) trials result;
      calls : AddsCalls seat.old (flat_map trial_calls trials) seat.new;
    } }
{
    let mut left = items.len();
    for item in items {
        left -= 1;
        let put = put_item(rt, ends, seat, clock, ids, item, last & (left == 0));
        if !is_number(&put) {
            return true;
        }
    }
    false
}

/// Whether the answer is a number.
fn is_number(put: &Put) -> bool
    ensures { is_stop put.now ≡ not result }
{
    matches!(put, Put::Seq(_))
}
