//! The reading worker behind its opening.

ghost use Rattle.std.specs.Prelude.{◌≡◌, false};
ghost use Rattle.turn_lock.specs.Seats.{IsSeatOf};
ghost use Rattle.relay_run.specs.Receiving.{ReadAll};

use crate::drops::Drops;
use chan_io::{Clock, Entropy, LinkIn};
use chan_values::Side;
use relay_desk::{Desk, Heard, Inlet};
use relay_switch::Switch;
use session_register::Keeper;
use std::sync::Wait;
use turn_lock::{Seat, TurnLock};

/// Reads all that comes.
pub fn read_all<R: Wait, C: Clock, N: LinkIn, K: Keeper + Drop, E: Entropy + Drop>(
    rt: &R,
    switch: &TurnLock<Switch>,
    clock: &C,
    desk: &TurnLock<Desk<K, E>>,
    desk_seat: &mut Seat<Desk<K, E>>,
    drops: &Drops,
    inlet: &mut Inlet<N>,
) -> Heard
    requires over { inlet.old.over ≡ false }
    requires switch { IsSeatOf switch.now inlet.old.seat }
    requires desk { IsSeatOf desk.now desk_seat.old }
    ensures { ReadAll inlet.old desk_seat.old result inlet.new desk_seat.new }
{
    for _ in rt.forever() {
        let heard = inlet.turn(rt, switch, clock, desk, desk_seat);
        if inlet.over {
            return heard;
        }
        if heard == Heard::Binary && inlet.role == Side::Plugin && drops.is_due() {
            return inlet.leave(rt, switch, clock, desk, desk_seat);
        }
    }
    unreachable!()
}
