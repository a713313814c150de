//! What waits for a connection that is over.

ghost use Rattle.turn_lock.specs.Seats.{IsSeatOf, SameLock};

use relay_switch::switch_seat::take;
use relay_switch::{Switch, SwitchAnswer};
use std::sync::Wait;
use turn_lock::{Seat, TurnLock};

/// Takes what waits for a connection whose output is shut, so that the switch keeps nothing of it.
pub(crate) fn drain<R: Wait>(rt: &R, switch: &TurnLock<Switch>, seat: &mut Seat<Switch>, conn: u64)
    requires { IsSeatOf switch.now seat.old }
    ensures { SameLock seat.old seat.new }
{
    for _ in rt.forever() {
        match take(rt, switch, seat, conn) {
            SwitchAnswer::Next(_action) => {}
            _ => return,
        }
    }
    unreachable!()
}
