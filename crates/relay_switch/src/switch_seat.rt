//! The calls of a shared switch, through a seat. Each waits for its turn. One that makes work for
//! another worker wakes those who rest.

ghost use Rattle.std.specs.Prelude.{◌≡◌, [], ◌∷◌};
ghost use Rattle.turn_lock.specs.Seats.{IsSeatOf};
ghost use Rattle.session_run.specs.Adds.{AddsCalls};
ghost use Rattle.relay_switch.specs.Kinds.{IsSwitchAnswer, IsTakeAnswer, done_or_not};
ghost use Rattle.relay_switch.specs.declared.switch_call.SwitchCall.TheVariants as SwitchCall;

use crate::switch::Switch;
use crate::switch_call::{SwitchAnswer, SwitchCall};
use chan_io::Clock;
use relay_core::Event;
use std::sync::Wait;
use turn_lock::{Seat, TurnLock};

/// Steps an event, and answers whether there was memory for it.
pub fn step<R: Wait, C: Clock>(
    rt: &R,
    switch: &TurnLock<Switch>,
    seat: &mut Seat<Switch>,
    clock: &C,
    event: Event,
    id: [u8; 16],
    now: u64,
) -> bool
    requires { IsSeatOf switch.now seat.old }
    ensures { AddsCalls seat.old
        ((SwitchCall.Step event id now, done_or_not result) ∷ []) seat.new }
{
    match call_switch(rt, switch, seat, SwitchCall::Step { event, id, now }) {
        SwitchAnswer::Done => {
            clock.wake();
            true
        }
        SwitchAnswer::NoMemory => false,
        _ => unreachable!(),
    }
}

/// Takes the next action at a connection.
pub fn take<R: Wait>(
    rt: &R,
    switch: &TurnLock<Switch>,
    seat: &mut Seat<Switch>,
    conn: u64,
) -> SwitchAnswer
    requires { IsSeatOf switch.now seat.old }
    ensures calls { AddsCalls seat.old ((SwitchCall.Take conn, result) ∷ []) seat.new }
    ensures kind { IsTakeAnswer result }
{
    call_switch(rt, switch, seat, SwitchCall::Take { conn })
}

/// Makes a call of the switch in its turn.
fn call_switch<R: Wait>(
    rt: &R,
    switch: &TurnLock<Switch>,
    seat: &mut Seat<Switch>,
    call: SwitchCall,
) -> SwitchAnswer
    requires { IsSeatOf switch.now seat.old }
    ensures calls { AddsCalls seat.old ((call, result) ∷ []) seat.new }
    ensures kind { IsSwitchAnswer call result }
{
    switch.act(rt, seat, call)
}
