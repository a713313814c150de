//! The calls of a shared desk, through a seat. Each waits for its turn.

ghost use Rattle.std.specs.Prelude.{◌≡◌, [], ◌∷◌};
ghost use Rattle.turn_lock.specs.Seats.{IsSeatOf};
ghost use Rattle.session_run.specs.Adds.{AddsCalls};
ghost use Rattle.relay_desk.specs.Desks.{IsDeskAnswer};
ghost use Rattle.relay_desk.specs.declared.desk_call.DeskAnswer.TheVariants as DeskAnswer;
ghost use Rattle.relay_desk.specs.declared.desk_call.DeskCall.TheVariants as DeskCall;

use crate::desk::Desk;
use crate::desk_call::{DeskAnswer, DeskCall};
use chan_io::{Entropy, Failed, IoFault};
use chan_values::Side;
use session_register::{Closing, Created, Keeper, Open, SessionName, Token};
use std::sync::Wait;
use turn_lock::{Seat, TurnLock};

/// Makes a session.
pub fn create<R: Wait, K: Keeper + Drop, E: Entropy + Drop>(
    rt: &R,
    desk: &TurnLock<Desk<K, E>>,
    seat: &mut Seat<Desk<K, E>>,
    session: SessionName,
    plugin: u64,
    agent: u64,
) -> Result<Created, IoFault>
    requires { IsSeatOf desk.now seat.old }
    ensures { AddsCalls seat.old
        ((DeskCall.Create session plugin agent, DeskAnswer.Create result) ∷ []) seat.new }
{
    let call = DeskCall::Create {
        session,
        plugin,
        agent,
    };
    match call_desk(rt, desk, seat, call) {
        DeskAnswer::Create(answer) => answer,
        _ => unreachable!(),
    }
}

/// Opens a session.
pub fn open<R: Wait, K: Keeper + Drop, E: Entropy + Drop>(
    rt: &R,
    desk: &TurnLock<Desk<K, E>>,
    seat: &mut Seat<Desk<K, E>>,
    session: SessionName,
    role: Side,
    token: Token,
    fresh: u64,
) -> Result<Open, IoFault>
    requires { IsSeatOf desk.now seat.old }
    ensures { AddsCalls seat.old
        ((DeskCall.Open session role token fresh, DeskAnswer.Open result) ∷ []) seat.new }
{
    let call = DeskCall::Open {
        session,
        role,
        token,
        fresh,
    };
    match call_desk(rt, desk, seat, call) {
        DeskAnswer::Open(answer) => answer,
        _ => unreachable!(),
    }
}

/// Ends a session.
pub fn end<R: Wait, K: Keeper + Drop, E: Entropy + Drop>(
    rt: &R,
    desk: &TurnLock<Desk<K, E>>,
    seat: &mut Seat<Desk<K, E>>,
    session: SessionName,
) -> Result<Closing, IoFault>
    requires { IsSeatOf desk.now seat.old }
    ensures { AddsCalls seat.old ((DeskCall.End session, DeskAnswer.End result) ∷ []) seat.new }
{
    match call_desk(rt, desk, seat, DeskCall::End { session }) {
        DeskAnswer::End(answer) => answer,
        _ => unreachable!(),
    }
}

/// Asks whether a session has ended.
pub fn ended<R: Wait, K: Keeper + Drop, E: Entropy + Drop>(
    rt: &R,
    desk: &TurnLock<Desk<K, E>>,
    seat: &mut Seat<Desk<K, E>>,
    session: SessionName,
) -> Result<Option<bool>, IoFault>
    requires { IsSeatOf desk.now seat.old }
    ensures { AddsCalls seat.old
        ((DeskCall.Ended session, DeskAnswer.Ended result) ∷ []) seat.new }
{
    match call_desk(rt, desk, seat, DeskCall::Ended { session }) {
        DeskAnswer::Ended(answer) => answer,
        _ => unreachable!(),
    }
}

/// Draws random bytes.
pub fn draw<R: Wait, K: Keeper + Drop, E: Entropy + Drop>(
    rt: &R,
    desk: &TurnLock<Desk<K, E>>,
    seat: &mut Seat<Desk<K, E>>,
) -> Result<[u8; 16], Failed>
    requires { IsSeatOf desk.now seat.old }
    ensures { AddsCalls seat.old ((DeskCall.Draw, DeskAnswer.Draw result) ∷ []) seat.new }
{
    match call_desk(rt, desk, seat, DeskCall::Draw) {
        DeskAnswer::Draw(answer) => answer,
        _ => unreachable!(),
    }
}

/// Makes a call of the desk in its turn.
fn call_desk<R: Wait, K: Keeper + Drop, E: Entropy + Drop>(
    rt: &R,
    desk: &TurnLock<Desk<K, E>>,
    seat: &mut Seat<Desk<K, E>>,
    call: DeskCall,
) -> DeskAnswer
    requires { IsSeatOf desk.now seat.old }
    ensures calls { AddsCalls seat.old ((call, result) ∷ []) seat.new }
    ensures kind { IsDeskAnswer call result }
{
    desk.act(rt, seat, call)
}
