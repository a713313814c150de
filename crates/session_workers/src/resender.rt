//! The worker that serves the retransmission timer.

ghost use Rattle.std.specs.Prelude.{◌≡◌, false};
ghost use Rattle.turn_lock.specs.Seats.{IsSeatOf};
ghost use Rattle.session_workers.specs.Resends.{ResendTurn, ResendsOnce, gave_up};

use crate::worker_end::REST_MILLIS;
use chan_io::Clock;
use channel_core::Tick;
use session_run::Held;
use session_run::end_seat::{look, tick};
use std::sync::Wait;
use turn_lock::{Seat, TurnLock};

/// What the resend worker has.
#[derive(Drop)]
pub struct Resender {
    /// Its seat on the lock over the end.
    pub end: Seat<Held>,
    /// Whether it made its last turn.
    pub over: bool,
}

impl Resender {
    /// Makes one turn: serves the timer, looks whether the end is closed, and rests where it is
    /// not. Answers the number on which the end gave up, if it did. It takes no memory.
    pub fn turn<R: Wait, C: Clock>(
        &mut self,
        rt: &R,
        ends: &TurnLock<Held>,
        clock: &C,
    ) -> Option<u64>
        requires over { self.old.over ≡ false }
        requires ends { IsSeatOf ends.now self.old.end }
        ensures { (turn : ResendTurn) × ResendsOnce self.old turn self.new result }
    {
        let now = clock.now();
        let found = tick(rt, ends, &mut self.end, clock, now);
        let seen = look(rt, ends, &mut self.end);
        self.over = seen.closed;
        if !seen.closed {
            clock.rest(REST_MILLIS);
        }
        gave_up(found)
    }
}

/// The number on which the end gave up, if it did.
fn gave_up(tick: Tick) -> Option<u64>
    ensures { result ≡ gave_up tick }
{
    match tick {
        Tick::GaveUp(seq) => Some(seq),
        _ => None,
    }
}
