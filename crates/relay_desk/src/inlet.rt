//! The reading worker of a connection that was let in: in each turn it receives one message and steps
//! the event that is due at it.

ghost use Rattle.std.specs.Prelude.{◌≡◌, false};
ghost use Rattle.turn_lock.specs.Seats.{IsSeatOf};
ghost use Rattle.session_run.specs.Adds.{AddsCalls};
ghost use Rattle.chan_io.specs.declared.got.Got.TheVariants as Got;
ghost use Rattle.relay_core.specs.declared.event.Event.TheVariants as Event;
ghost use Rattle.relay_desk.specs.Hearing.{Hearing, Stepping, end_session, ends_session, hearing_desk, stepping_desk, stepping_end, stepping_switch};
ghost use Rattle.relay_desk.specs.InletTurns.{EndsSession, Hears, Reading, Reads, StepsEvent, reading_desk};

use crate::desk::Desk;
use crate::desk_seat::{draw, end};
use crate::heard::{Heard, is_last_heard, store_end};
use chan_io::{Clock, Entropy, Got, IoFault, LinkIn};
use chan_values::{Bytes, Side};
use relay_core::Event;
use relay_switch::{Switch, switch_seat};
use session_register::{Keeper, SessionName};
use std::sync::Wait;
use turn_lock::{Seat, TurnLock};

/// A connection's input, with the seat that steps what comes.
#[derive(Drop)]
pub struct Inlet<N> {
    /// The connection.
    pub conn: u64,
    /// The session to which it was let in.
    pub session: SessionName,
    /// The end as which it was let in.
    pub role: Side,
    /// Its input.
    pub input: N,
    /// The seat of its steps.
    pub seat: Seat<Switch>,
    /// Whether the last turn was made: at first not.
    pub over: bool,
}

impl<N: LinkIn> Inlet<N> {
    /// Steps the opening of the connection, with the reply to it.
    pub fn open<R: Wait, C: Clock, K: Keeper + Drop, E: Entropy + Drop>(
        &mut self,
        rt: &R,
        switch: &TurnLock<Switch>,
        clock: &C,
        desk: &TurnLock<Desk<K, E>>,
        desk_seat: &mut Seat<Desk<K, E>>,
        reply: Bytes,
    ) -> Heard
        requires switch { IsSeatOf switch.now self.old.seat }
        requires desk { IsSeatOf desk.now desk_seat.old }
        ensures { (stepping : Stepping) × record {
          steps : StepsEvent self.old
              (Event.Opened self.old.conn self.old.session self.old.role reply)
              Heard.Opened stepping self.new result;
          desk : AddsCalls desk_seat.old (stepping_desk stepping) desk_seat.new;
        } }
    {
        let event = Event::Opened {
            conn: self.conn,
            session: self.session,
            role: self.role,
            reply,
        };
        self.step(rt, switch, clock, desk, desk_seat, event, Heard::Opened)
    }

    /// Takes the connection as gone.
    pub fn leave<R: Wait, C: Clock, K: Keeper + Drop, E: Entropy + Drop>(
        &mut self,
        rt: &R,
        switch: &TurnLock<Switch>,
        clock: &C,
        desk: &TurnLock<Desk<K, E>>,
        desk_seat: &mut Seat<Desk<K, E>>,
    ) -> Heard
        requires over { self.old.over ≡ false }
        requires switch { IsSeatOf switch.now self.old.seat }
        requires desk { IsSeatOf desk.now desk_seat.old }
        ensures { (stepping : Stepping) × record {
          steps : StepsEvent self.old (Event.Gone self.old.conn)
              Heard.Gone stepping self.new result;
          desk : AddsCalls desk_seat.old (stepping_desk stepping) desk_seat.new;
        } }
    {
        let event = Event::Gone { conn: self.conn };
        self.step(rt, switch, clock, desk, desk_seat, event, Heard::Gone)
    }

    /// Receives one message, and steps the event that is due at it. A receive that failed is the loss
    /// of the connection.
    pub fn turn<R: Wait, C: Clock, K: Keeper + Drop, E: Entropy + Drop>(
        &mut self,
        rt: &R,
        switch: &TurnLock<Switch>,
        clock: &C,
        desk: &TurnLock<Desk<K, E>>,
        desk_seat: &mut Seat<Desk<K, E>>,
    ) -> Heard
        requires over { self.old.over ≡ false }
        requires switch { IsSeatOf switch.now self.old.seat }
        requires desk { IsSeatOf desk.now desk_seat.old }
        ensures { (reading : Reading) × record {
          reads : Reads N.arrivals N.faults self.old reading self.new result;
          desk : AddsCalls desk_seat.old (reading_desk self.old.session reading) desk_seat.new;
        } }
    {
        match self.input.receive() {
            Ok(got) => self.hear(rt, switch, clock, desk, desk_seat, got),
            Err(IoFault::Failed) => self.hear(rt, switch, clock, desk, desk_seat, Got::Gone),
            Err(IoFault::NoMemory) => {
                self.over = true;
                Heard::NoMemory
            }
        }
    }

    /// Does what is due at what came.
    fn hear<R: Wait, C: Clock, K: Keeper + Drop, E: Entropy + Drop>(
        &mut self,
        rt: &R,
        switch: &TurnLock<Switch>,
        clock: &C,
        desk: &TurnLock<Desk<K, E>>,
        desk_seat: &mut Seat<Desk<K, E>>,
        got: Got,
    ) -> Heard
        requires over { self.old.over ≡ false }
        requires switch { IsSeatOf switch.now self.old.seat }
        requires desk { IsSeatOf desk.now desk_seat.old }
        ensures { (hearing : Hearing) × record {
          hears : Hears self.old got hearing self.new result;
          desk : AddsCalls desk_seat.old (hearing_desk self.old.session hearing) desk_seat.new;
        } }
    {
        match got {
            Got::Binary(bytes) => {
                let event = Event::Binary {
                    conn: self.conn,
                    bytes,
                };
                self.step(rt, switch, clock, desk, desk_seat, event, Heard::Binary)
            }
            Got::Text(text) => self.hear_text(rt, switch, clock, desk, desk_seat, text.as_slice()),
            Got::Gone => {
                let event = Event::Gone { conn: self.conn };
                self.step(rt, switch, clock, desk, desk_seat, event, Heard::Gone)
            }
        }
    }

    /// Does what is due at a text that came.
    fn hear_text<R: Wait, C: Clock, K: Keeper + Drop, E: Entropy + Drop>(
        &mut self,
        rt: &R,
        switch: &TurnLock<Switch>,
        clock: &C,
        desk: &TurnLock<Desk<K, E>>,
        desk_seat: &mut Seat<Desk<K, E>>,
        text: &[u8],
    ) -> Heard
        requires over { self.old.over ≡ false }
        requires switch { IsSeatOf switch.now self.old.seat }
        requires desk { IsSeatOf desk.now desk_seat.old }
        ensures { (hearing : Hearing) × record {
          hears : Hears self.old (Got.Text text.now) hearing self.new result;
          desk : AddsCalls desk_seat.old (hearing_desk self.old.session hearing) desk_seat.new;
        } }
    {
        if ends_session(self.role, text) {
            self.end(rt, switch, clock, desk, desk_seat)
        } else {
            Heard::Passed
        }
    }

    /// Ends the session, in the register first.
    fn end<R: Wait, C: Clock, K: Keeper + Drop, E: Entropy + Drop>(
        &mut self,
        rt: &R,
        switch: &TurnLock<Switch>,
        clock: &C,
        desk: &TurnLock<Desk<K, E>>,
        desk_seat: &mut Seat<Desk<K, E>>,
    ) -> Heard
        requires switch { IsSeatOf switch.now self.old.seat }
        requires desk { IsSeatOf desk.now desk_seat.old }
        ensures { (hearing : Hearing) × record {
          ends : EndsSession self.old hearing self.new result;
          desk : AddsCalls desk_seat.old (hearing_desk self.old.session hearing) desk_seat.new;
        } }
    {
        match end(rt, desk, desk_seat, self.session) {
            Ok(_closing) => {
                let event = Event::EndSession {
                    session: self.session,
                };
                self.step(rt, switch, clock, desk, desk_seat, event, Heard::Ended)
            }
            Err(fault) => {
                self.over = true;
                store_end(fault)
            }
        }
    }

    /// Steps an event, and comes to `made` where that was done.
    fn step<R: Wait, C: Clock, K: Keeper + Drop, E: Entropy + Drop>(
        &mut self,
        rt: &R,
        switch: &TurnLock<Switch>,
        clock: &C,
        desk: &TurnLock<Desk<K, E>>,
        desk_seat: &mut Seat<Desk<K, E>>,
        event: Event,
        made: Heard,
    ) -> Heard
        requires switch { IsSeatOf switch.now self.old.seat }
        requires desk { IsSeatOf desk.now desk_seat.old }
        ensures { (stepping : Stepping) × record {
          steps : StepsEvent self.old event made stepping self.new result;
          desk : AddsCalls desk_seat.old (stepping_desk stepping) desk_seat.new;
        } }
    {
        let heard = step_event(
            rt,
            switch,
            &mut self.seat,
            clock,
            desk,
            desk_seat,
            event,
            made,
        );
        self.over = is_last_heard(heard);
        heard
    }
}

/// Whether this text of an end ends its session.
fn ends_session(role: Side, text: &[u8]) -> bool
    ensures { result ≡ ends_session role text.now }
{
    match role {
        Side::Agent => text == end_session(),
        Side::Plugin => false,
    }
}

/// The text by which the agent ends the session.
fn end_session() -> &'static [u8]
    ensures { result.now ≡ end_session }
{
    b"{\"MessageType\":\"end_session\"}"
}

/// Draws an id, and steps the event with it. Answers `made` where the step was made.
fn step_event<R: Wait, C: Clock, K: Keeper + Drop, E: Entropy + Drop>(
    rt: &R,
    switch: &TurnLock<Switch>,
    seat: &mut Seat<Switch>,
    clock: &C,
    desk: &TurnLock<Desk<K, E>>,
    desk_seat: &mut Seat<Desk<K, E>>,
    event: Event,
    made: Heard,
) -> Heard
    requires switch { IsSeatOf switch.now seat.old }
    requires desk { IsSeatOf desk.now desk_seat.old }
    ensures { (stepping : Stepping) × record {
      seat : AddsCalls seat.old (stepping_switch event stepping) seat.new;
      desk : AddsCalls desk_seat.old (stepping_desk stepping) desk_seat.new;
      heard : result ≡ stepping_end made stepping;
    } }
{
    let id = match draw(rt, desk, desk_seat) {
        Ok(id) => id,
        Err(_fault) => return Heard::Entropy,
    };
    let now = clock.now();
    if switch_seat::step(rt, switch, seat, clock, event, id, now) {
        made
    } else {
        Heard::NoMemory
    }
}
