//! The worker that dials, and hears what comes.

ghost use Rattle.std.specs.Prelude.{◌≡◌, true, false, None, List, []};
ghost use Rattle.turn_lock.specs.Seats.{IsSeatOf};
ghost use Rattle.session_workers.specs.ReaderRuns.{Reads};
ghost use Rattle.session_workers.specs.ReaderSteps.{IsReaderTurn};
ghost use Rattle.session_workers.specs.Readers.{Steps};
ghost use Rattle.session_workers.specs.Reading.{ReaderStep};

use crate::arrival::meet_message;
use crate::link_setting::LinkSetting;
use crate::read_state::{ReadEnd, ReadState};
use crate::reply::take_reply;
use chan_io::{Clock, Dialer, Got, IoFault, LinkIn};
use session_run::end_seat::{look, lost};
use session_run::{Held, Shelf};
use std::alloc::Global;
use std::sync::Wait;
use turn_lock::{Seat, TurnLock};

/// How long a link reader rests after a dial that failed, in milliseconds.
const DIAL_REST_MILLIS: u64 = 200;

/// What the link reader has.
#[derive(Drop)]
pub struct LinkReader<D, N> {
    /// What it is set to.
    pub setting: LinkSetting,
    /// What it dials with.
    pub dialer: D,
    /// What it receives from.
    pub input: N,
    /// Its seat on the lock over the end.
    pub end: Seat<Held>,
    /// Its seat on the lock over the shelf.
    pub shelf: Seat<Shelf>,
    /// What it remembers.
    pub state: ReadState,
}

impl<D: Dialer, N: LinkIn> LinkReader<D, N> {
    /// Makes one turn: looks whether the end is closed; where it is not, dials if there is no
    /// connection, and else receives. How it ended is in its state.
    pub fn turn<R: Wait, C: Clock>(
        &mut self,
        rt: &R,
        alloc: Global,
        ends: &TurnLock<Held>,
        shelf: &TurnLock<Shelf>,
        clock: &C,
    )
        requires on { self.old.state.over ≡ None }
        requires ends { IsSeatOf ends.now self.old.end }
        requires shelf { IsSeatOf shelf.now self.old.shelf }
        ensures { (steps : List ReaderStep) × IsReaderTurn steps
            × Reads D.dials D.faults N.arrivals N.faults self.old steps [] self.new }
    {
        let seen = look(rt, ends, &mut self.end);
        if seen.closed {
            self.state.over = Some(ReadEnd::Closed);
        } else if self.state.up {
            self.receive(rt, alloc, ends, shelf, clock);
        } else {
            self.dial(rt, alloc, ends, shelf, clock);
        }
    }

    /// Dials, and rests where the dial failed and is to be tried again.
    fn dial<R: Wait, C: Clock>(
        &mut self,
        rt: &R,
        alloc: Global,
        ends: &TurnLock<Held>,
        shelf: &TurnLock<Shelf>,
        clock: &C,
    )
        requires on { self.old.state.over ≡ None }
        requires down { self.old.state.up ≡ false }
        requires ends { IsSeatOf ends.now self.old.end }
        requires shelf { IsSeatOf shelf.now self.old.shelf }
        ensures { (step : ReaderStep) × Steps D.dials D.faults N.arrivals N.faults self.old step
            self.new }
    {
        let Ok(text) = self.setting.opening(alloc, &self.state.token) else {
            self.state.over = Some(ReadEnd::NoMemory);
            return;
        };
        match self.dialer.dial(&self.setting.address, &text) {
            Ok(reply) => take_reply(
                rt,
                alloc,
                ends,
                &mut self.end,
                shelf,
                &mut self.shelf,
                clock,
                &mut self.state,
                reply,
            ),
            Err(IoFault::Failed) => {
                self.state.miss();
                if self.state.over.is_none() {
                    clock.rest(DIAL_REST_MILLIS);
                }
            }
            Err(IoFault::NoMemory) => self.state.over = Some(ReadEnd::NoMemory),
        }
    }

    /// Receives over the connection.
    fn receive<R: Wait, C: Clock>(
        &mut self,
        rt: &R,
        alloc: Global,
        ends: &TurnLock<Held>,
        shelf: &TurnLock<Shelf>,
        clock: &C,
    )
        requires on { self.old.state.over ≡ None }
        requires up { self.old.state.up ≡ true }
        requires ends { IsSeatOf ends.now self.old.end }
        requires shelf { IsSeatOf shelf.now self.old.shelf }
        ensures { (step : ReaderStep) × Steps D.dials D.faults N.arrivals N.faults self.old step
            self.new }
    {
        match self.input.receive() {
            Ok(Got::Binary(bytes)) => {
                self.state.over = meet_message(
                    rt,
                    alloc,
                    &self.setting,
                    ends,
                    &mut self.end,
                    shelf,
                    &mut self.shelf,
                    clock,
                    &bytes,
                );
            }
            Ok(Got::Text(_text)) => {}
            Ok(Got::Gone) => {
                lost(rt, ends, &mut self.end);
                self.state.up = false;
            }
            Err(IoFault::Failed) => {
                lost(rt, ends, &mut self.end);
                self.state.up = false;
            }
            Err(IoFault::NoMemory) => self.state.over = Some(ReadEnd::NoMemory),
        }
    }
}
