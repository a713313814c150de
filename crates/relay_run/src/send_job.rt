//! The worker that writes to a connection, as a job.

ghost use Rattle.std.specs.Prelude.{◌≡◌, false, true};
ghost use Rattle.chan_io.specs.LinksOut.{Shuts};
ghost use Rattle.turn_lock.specs.Seats.{IsSeatOf};

use crate::mark::Mark;
use crate::send_end::{SendEnd, end_of};
use chan_io::{Clock, Job, LinkOut};
use relay_switch::{Outlet, Switch, Turned};
use std::sync::Wait;
use turn_lock::TurnLock;

/// How long the worker rests that finds nothing to send, in milliseconds.
pub const REST_MILLIS: u64 = 5;

/// The worker that writes to a connection, with all that it needs.
#[derive(Drop)]
pub struct SendJob<'s, R, C, U: LinkOut + Drop> {
    /// The runtime.
    pub rt: &'s R,
    /// The lock over the switch of its session.
    pub switch: &'s TurnLock<Switch>,
    /// The clock.
    pub clock: &'s C,
    /// The mark at which it ends.
    pub mark: &'s Mark,
    /// Its connection's output and its seat, before its first turn.
    pub outlet: Outlet<U>,
    ghost new: { outlet.over ≡ false },
    ghost its_switch: { IsSeatOf switch.now outlet.seat },
}

/// What the worker ends with.
#[derive(Drop)]
pub struct SendDone<U: LinkOut + Drop> {
    /// Its connection's output, which was shut, and its seat.
    pub outlet: Outlet<U>,
    /// How it ended.
    pub end: SendEnd,
}

impl<'s, R: Wait + Sync, C: Clock + Sync, U: LinkOut + Send + Drop> Job for SendJob<'s, R, C, U> {
    ghost use Rattle.relay_run.specs.Sending.{SentAll};

    type Done = SendDone<U>;

    ghost may_end = { λ job done. SentAll job.outlet done.end done.outlet };

    fn run(self) -> SendDone<U> {
        let SendJob {
            rt,
            switch,
            clock,
            mark,
            mut outlet,
        } = self;
        for _ in rt.forever() {
            if mark.is_set() {
                stop(&mut outlet);
                return SendDone {
                    outlet,
                    end: SendEnd::Stopped,
                };
            }
            let turned = outlet.turn(rt, switch);
            if outlet.over {
                return SendDone {
                    outlet,
                    end: end_of(turned),
                };
            }
            rest_if_idle(clock, turned);
        }
        unreachable!()
    }
}

/// Shuts the output before the connection is over.
fn stop<U: LinkOut + Drop>(outlet: &mut Outlet<U>)
    requires { outlet.old.over ≡ false }
    ensures conn { outlet.new.conn ≡ outlet.old.conn }
    ensures seat { outlet.new.seat ≡ outlet.old.seat }
    ensures over { outlet.new.over ≡ true }
    ensures shuts { Shuts (U.departures outlet.old.output) (U.departures outlet.new.output) }
    ensures steady { U.faults outlet.new.output ≡ U.faults outlet.old.output }
{
    outlet.output.shut();
    outlet.over = true;
}

/// Rests where nothing was sent.
fn rest_if_idle<C: Clock>(clock: &C, turned: Turned) {
    if turned == Turned::Idle {
        clock.rest(REST_MILLIS);
    }
}
