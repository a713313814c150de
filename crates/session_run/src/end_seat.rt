//! The calls of a shared end, through a seat. Each waits for its turn. One that makes work for
//! another worker wakes those who rest.

ghost use Rattle.std.specs.Prelude.{◌≡◌, ◌≤◌, [], ◌∷◌, length};
ghost use Rattle.chan_values.specs.Limits.{max_payload};
ghost use Rattle.channel_core.specs.Condition.{CanBeEncoded, IfEmitted, IsCallable, IsNumbered};
ghost use Rattle.turn_lock.specs.Seats.{IsSeatOf};
ghost use Rattle.session_run.specs.Adds.{AddsCalls, EndsWith};
ghost use Rattle.session_run.specs.Kinds.{HandsBack, IsEndAnswer};
ghost use Rattle.channel_core.specs.declared.call.EndAnswer.TheVariants as EndAnswer;
ghost use Rattle.channel_core.specs.declared.call.EndCall.TheVariants as EndCall;

use crate::held::Held;
use chan_io::Clock;
use chan_values::Item;
use channel_core::{EndAnswer, EndCall, Heard, Incoming, Look, Pull, Put, Tick};
use std::sync::Wait;
use turn_lock::{Seat, TurnLock};

/// Puts in an item.
pub fn put<R: Wait, C: Clock>(
    rt: &R,
    ends: &TurnLock<Held>,
    seat: &mut Seat<Held>,
    clock: &C,
    item: Item,
    id: [u8; 16],
    now: u64,
) -> Put
    requires lock { IsSeatOf ends.now seat.old }
    requires small { length item.payload ≤ max_payload }
    ensures calls { AddsCalls seat.old
        ((EndCall.Put item id now, EndAnswer.Put result) ∷ []) seat.new }
    ensures back { HandsBack item result }
{
    match call_end(rt, ends, seat, EndCall::Put { item, id, now }) {
        EndAnswer::Put(put) => {
            wake_after_put(clock, &put);
            put
        }
        _ => unreachable!(),
    }
}

/// Puts in an item as the last.
pub fn put_last<R: Wait, C: Clock>(
    rt: &R,
    ends: &TurnLock<Held>,
    seat: &mut Seat<Held>,
    clock: &C,
    item: Item,
    id: [u8; 16],
    now: u64,
) -> Put
    requires lock { IsSeatOf ends.now seat.old }
    requires small { length item.payload ≤ max_payload }
    ensures calls { AddsCalls seat.old
        ((EndCall.PutLast item id now, EndAnswer.Put result) ∷ []) seat.new }
    ensures back { HandsBack item result }
{
    match call_end(rt, ends, seat, EndCall::PutLast { item, id, now }) {
        EndAnswer::Put(put) => {
            wake_after_put(clock, &put);
            put
        }
        _ => unreachable!(),
    }
}

/// Hands in a message that came.
pub fn heard<R: Wait, C: Clock>(
    rt: &R,
    ends: &TurnLock<Held>,
    seat: &mut Seat<Held>,
    clock: &C,
    incoming: Incoming,
    now: u64,
) -> Heard
    requires lock { IsSeatOf ends.now seat.old }
    requires numbered { IsNumbered incoming }
    ensures { AddsCalls seat.old
        ((EndCall.Heard now incoming, EndAnswer.Heard result) ∷ []) seat.new }
{
    match call_end(rt, ends, seat, EndCall::Heard { now, incoming }) {
        EndAnswer::Heard(heard) => {
            wake_after_heard(clock, &heard);
            heard
        }
        _ => unreachable!(),
    }
}

/// Tells that a connection was made.
pub fn opened<R: Wait, C: Clock>(
    rt: &R,
    ends: &TurnLock<Held>,
    seat: &mut Seat<Held>,
    clock: &C,
    now: u64,
)
    requires { IsSeatOf ends.now seat.old }
    ensures { AddsCalls seat.old ((EndCall.Opened now, EndAnswer.Done) ∷ []) seat.new }
{
    match call_end(rt, ends, seat, EndCall::Opened { now }) {
        EndAnswer::Done => clock.wake(),
        _ => unreachable!(),
    }
}

/// Tells that the connection was lost.
pub fn lost<R: Wait>(rt: &R, ends: &TurnLock<Held>, seat: &mut Seat<Held>)
    requires { IsSeatOf ends.now seat.old }
    ensures { AddsCalls seat.old ((EndCall.Lost, EndAnswer.Done) ∷ []) seat.new }
{
    match call_end(rt, ends, seat, EndCall::Lost) {
        EndAnswer::Done => {}
        _ => unreachable!(),
    }
}

/// Asks for the next message to transmit.
pub fn pull<R: Wait>(rt: &R, ends: &TurnLock<Held>, seat: &mut Seat<Held>, now: u64) -> Pull
    requires { IsSeatOf ends.now seat.old }
    ensures calls { AddsCalls seat.old ((EndCall.Pull now, EndAnswer.Pull result) ∷ []) seat.new }
    ensures encodable { IfEmitted result CanBeEncoded }
{
    match call_end(rt, ends, seat, EndCall::Pull { now }) {
        EndAnswer::Pull(pull) => pull,
        _ => unreachable!(),
    }
}

/// Serves the retransmission timer.
pub fn tick<R: Wait, C: Clock>(
    rt: &R,
    ends: &TurnLock<Held>,
    seat: &mut Seat<Held>,
    clock: &C,
    now: u64,
) -> Tick
    requires { IsSeatOf ends.now seat.old }
    ensures { AddsCalls seat.old ((EndCall.Tick now, EndAnswer.Tick result) ∷ []) seat.new }
{
    match call_end(rt, ends, seat, EndCall::Tick { now }) {
        EndAnswer::Tick(tick) => {
            wake_after_tick(clock, tick);
            tick
        }
        _ => unreachable!(),
    }
}

/// Asks for the numbers of the end.
pub fn look<R: Wait>(rt: &R, ends: &TurnLock<Held>, seat: &mut Seat<Held>) -> Look
    requires { IsSeatOf ends.now seat.old }
    ensures { AddsCalls seat.old ((EndCall.Look, EndAnswer.Look result) ∷ []) seat.new }
{
    match call_end(rt, ends, seat, EndCall::Look) {
        EndAnswer::Look(look) => look,
        _ => unreachable!(),
    }
}

/// Closes the end.
pub fn close<R: Wait, C: Clock>(rt: &R, ends: &TurnLock<Held>, seat: &mut Seat<Held>, clock: &C)
    requires { IsSeatOf ends.now seat.old }
    ensures calls { AddsCalls seat.old ((EndCall.Close, EndAnswer.Done) ∷ []) seat.new }
    ensures last { EndsWith seat.old EndCall.Close EndAnswer.Done seat.new }
{
    match call_end(rt, ends, seat, EndCall::Close) {
        EndAnswer::Done => clock.wake(),
        _ => unreachable!(),
    }
}

/// A message that was put in is to be sent.
fn wake_after_put<C: Clock>(clock: &C, put: &Put) {
    if matches!(put, Put::Seq(_)) {
        clock.wake();
    }
}

/// What was heard may be owed an acknowledgement, be for the session, make room, or close the end.
fn wake_after_heard<C: Clock>(clock: &C, heard: &Heard) {
    match heard {
        Heard::Released(_) | Heard::Finished(_) | Heard::Late => clock.wake(),
        Heard::Acked(_) | Heard::Started | Heard::Ended => clock.wake(),
        _ => {}
    }
}

/// A message is to be sent again, or the end is closed.
fn wake_after_tick<C: Clock>(clock: &C, tick: Tick) {
    if tick != Tick::Nothing {
        clock.wake();
    }
}

/// Makes a call of the end in its turn.
fn call_end<R: Wait>(
    rt: &R,
    ends: &TurnLock<Held>,
    seat: &mut Seat<Held>,
    call: EndCall,
) -> EndAnswer
    requires lock { IsSeatOf ends.now seat.old }
    requires call { IsCallable call }
    ensures calls { AddsCalls seat.old ((call, result) ∷ []) seat.new }
    ensures last { EndsWith seat.old call result seat.new }
    ensures kind { IsEndAnswer call result }
{
    ends.act(rt, seat, call)
}
