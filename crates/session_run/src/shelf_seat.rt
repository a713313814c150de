//! The calls of a shared shelf, through a seat. Each waits for its turn. One that makes work for
//! another worker wakes those who rest.

ghost use Rattle.std.specs.Prelude.{◌≡◌, [], ◌∷◌};
ghost use Rattle.turn_lock.specs.Seats.{IsSeatOf};
ghost use Rattle.session_run.specs.Adds.{AddsCalls};
ghost use Rattle.session_run.specs.Kinds.{IsShelfAnswer};
ghost use Rattle.session_run.specs.Shelf.{added_or_not};
ghost use Rattle.session_run.specs.declared.shelf_call.ShelfAnswer.TheVariants as ShelfAnswer;
ghost use Rattle.session_run.specs.declared.shelf_call.ShelfCall.TheVariants as ShelfCall;

use crate::parcel::Parcel;
use crate::shelf::Shelf;
use crate::shelf_call::{Count, ShelfAnswer, ShelfCall};
use chan_io::Clock;
use std::sync::Wait;
use turn_lock::{Seat, TurnLock};

/// Adds a parcel, and answers whether there was memory for it.
pub fn add<R: Wait, C: Clock>(
    rt: &R,
    shelf: &TurnLock<Shelf>,
    seat: &mut Seat<Shelf>,
    clock: &C,
    parcel: Parcel,
) -> bool
    requires { IsSeatOf shelf.now seat.old }
    ensures { AddsCalls seat.old ((ShelfCall.Add parcel, added_or_not result) ∷ []) seat.new }
{
    match call_shelf(rt, shelf, seat, ShelfCall::Add(parcel)) {
        ShelfAnswer::Added => {
            clock.wake();
            true
        }
        ShelfAnswer::NoMemory => false,
        _ => unreachable!(),
    }
}

/// Takes the first parcel.
pub fn first<R: Wait>(rt: &R, shelf: &TurnLock<Shelf>, seat: &mut Seat<Shelf>) -> Option<Parcel>
    requires { IsSeatOf shelf.now seat.old }
    ensures { AddsCalls seat.old ((ShelfCall.First, ShelfAnswer.First result) ∷ []) seat.new }
{
    match call_shelf(rt, shelf, seat, ShelfCall::First) {
        ShelfAnswer::First(parcel) => parcel,
        _ => unreachable!(),
    }
}

/// Asks what waits and what was noted.
pub fn count<R: Wait>(rt: &R, shelf: &TurnLock<Shelf>, seat: &mut Seat<Shelf>) -> Count
    requires { IsSeatOf shelf.now seat.old }
    ensures { AddsCalls seat.old ((ShelfCall.Count, ShelfAnswer.Count result) ∷ []) seat.new }
{
    match call_shelf(rt, shelf, seat, ShelfCall::Count) {
        ShelfAnswer::Count(count) => count,
        _ => unreachable!(),
    }
}

/// Notes that a connection was made.
pub fn note_opening<R: Wait, C: Clock>(
    rt: &R,
    shelf: &TurnLock<Shelf>,
    seat: &mut Seat<Shelf>,
    clock: &C,
)
    requires { IsSeatOf shelf.now seat.old }
    ensures { AddsCalls seat.old ((ShelfCall.Opening, ShelfAnswer.Done) ∷ []) seat.new }
{
    match call_shelf(rt, shelf, seat, ShelfCall::Opening) {
        ShelfAnswer::Done => clock.wake(),
        _ => unreachable!(),
    }
}

/// Notes that the session is to finish; with `true`, that a worker met a fault.
pub fn note_finish<R: Wait, C: Clock>(
    rt: &R,
    shelf: &TurnLock<Shelf>,
    seat: &mut Seat<Shelf>,
    clock: &C,
    fault: bool,
)
    requires { IsSeatOf shelf.now seat.old }
    ensures { AddsCalls seat.old ((ShelfCall.Finish fault, ShelfAnswer.Done) ∷ []) seat.new }
{
    match call_shelf(rt, shelf, seat, ShelfCall::Finish(fault)) {
        ShelfAnswer::Done => clock.wake(),
        _ => unreachable!(),
    }
}

/// Makes a call of the shelf in its turn.
fn call_shelf<R: Wait>(
    rt: &R,
    shelf: &TurnLock<Shelf>,
    seat: &mut Seat<Shelf>,
    call: ShelfCall,
) -> ShelfAnswer
    requires { IsSeatOf shelf.now seat.old }
    ensures calls { AddsCalls seat.old ((call, result) ∷ []) seat.new }
    ensures kind { IsShelfAnswer call result }
{
    shelf.act(rt, seat, call)
}
