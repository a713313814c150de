//! The worker that sends what the end emits.

ghost use Rattle.std.specs.Prelude.{◌≡◌, true, false, [], Some, is_some, is_err, if◌then◌else◌};
ghost use Rattle.channel_core.specs.Wire.{CanBeEncoded, encoding};
ghost use Rattle.chan_io.specs.Faults.{IfFailed, Rises, UnlessFailed};
ghost use Rattle.chan_io.specs.LinksOut.{sent_by};
ghost use Rattle.chan_io.specs.declared.got.Got.TheVariants as Got;
ghost use Rattle.turn_lock.specs.Seats.{IsSeatOf};
ghost use Rattle.session_workers.specs.Writing.{CountsFailures, Departs, IdleTurn, WriterTurn, failures, is_text_due, text_by, wants};
ghost use Rattle.session_workers.specs.Writers.{Idles, Writes};

use crate::worker_end::REST_MILLIS;
use chan_io::{Clock, IoFault, LinkOut};
use chan_values::{NoMemory, Side};
use channel_core::wire::outgoing;
use channel_core::{Look, Outgoing, Pull};
use session_run::end_seat::{look, pull};
use session_run::shelf_seat::count;
use session_run::{Count, Held, Shelf};
use std::alloc::Global;
use std::sync::Wait;
use turn_lock::{Seat, TurnLock};

/// The text by which the agent ends the session.
const END_SESSION: &[u8] = b"{\"MessageType\":\"end_session\"}";

/// What the link writer has.
#[derive(Drop)]
pub struct LinkWriter<U> {
    /// The side of the end.
    pub side: Side,
    /// What it sends to.
    pub output: U,
    /// Its seat on the lock over the end.
    pub end: Seat<Held>,
    /// Its seat on the lock over the shelf.
    pub shelf: Seat<Shelf>,
    /// For how many openings it has sent the end-of-session text, or tried to: at first none.
    pub told: u64,
    /// Whether it made its last turn.
    pub over: bool,
}

impl<U: LinkOut> LinkWriter<U> {
    /// Makes one turn: pulls, and sends what was pulled. Where nothing was, it looks whether the end
    /// is closed or the session is to be ended, and rests. A send that fails loses that message
    /// alone.
    pub fn turn<R: Wait, C: Clock>(
        &mut self,
        rt: &R,
        alloc: Global,
        ends: &TurnLock<Held>,
        shelf: &TurnLock<Shelf>,
        clock: &C,
    ) -> Result<(), NoMemory>
        requires over { self.old.over ≡ false }
        requires ends { IsSeatOf ends.now self.old.end }
        requires shelf { IsSeatOf shelf.now self.old.shelf }
        ensures { (turn : WriterTurn) × Writes U.departures U.faults self.old turn self.new result }
    {
        let now = clock.now();
        let out = match pull(rt, ends, &mut self.end, now) {
            Pull::Emit(out) => out,
            Pull::Idle => return self.idle(rt, ends, shelf, clock),
            Pull::NoMemory => return self.give_up(),
        };
        let sent = send_message(alloc, self.side, &mut self.output, &out);
        self.settle(Some(sent))
    }

    /// The rest of a turn in which nothing was pulled.
    fn idle<R: Wait, C: Clock>(
        &mut self,
        rt: &R,
        ends: &TurnLock<Held>,
        shelf: &TurnLock<Shelf>,
        clock: &C,
    ) -> Result<(), NoMemory>
        requires over { self.old.over ≡ false }
        requires ends { IsSeatOf ends.now self.old.end }
        requires shelf { IsSeatOf shelf.now self.old.shelf }
        ensures { (i : IdleTurn) × Idles U.departures U.faults self.old i self.new result }
    {
        let first = count(rt, shelf, &mut self.shelf);
        let found = look(rt, ends, &mut self.end);
        if found.closed {
            let again = count(rt, shelf, &mut self.shelf);
            let due = self.is_text_due(&first, &found, Some(again));
            let text = send_end(&mut self.output, due);
            self.over = true;
            self.output.shut();
            return answer_of(&text);
        }
        let due = self.is_text_due(&first, &found, None);
        let text = send_end(&mut self.output, due);
        self.told = told_if(self.told, due, first.openings);
        clock.rest(REST_MILLIS);
        self.settle(text)
    }

    /// Whether the end-of-session text is due.
    fn is_text_due(&self, count: &Count, look: &Look, again: Option<Count>) -> bool
        ensures { result ≡ is_text_due self.now.side self.now.told count.now look.now again }
    {
        if self.side == Side::Plugin {
            return false;
        }
        match again {
            Some(again) => again.fault && self.told < again.openings,
            None => count.finish && self.told < count.openings && look.low == look.next,
        }
    }

    /// Makes the turn the last where its send wanted memory.
    fn settle(&mut self, sent: Option<Result<(), IoFault>>) -> Result<(), NoMemory>
        requires { self.old.over ≡ false }
        ensures kept { self.new ≡ record self.old { output = self.new.output; over = wants sent } }
        ensures shut { Departs [] (wants sent) (U.departures self.old.output)
            (U.departures self.new.output) }
        ensures counted { U.faults self.new.output ≡ U.faults self.old.output }
        ensures answer { is_err result ≡ wants sent }
    {
        match sent {
            Some(Err(IoFault::NoMemory)) => self.give_up(),
            _ => Ok(()),
        }
    }

    /// Ends the work for want of memory.
    fn give_up(&mut self) -> Result<(), NoMemory>
        ensures kept { self.new ≡ record self.old { output = self.new.output; over = true } }
        ensures shut { Departs [] true (U.departures self.old.output)
            (U.departures self.new.output) }
        ensures counted { U.faults self.new.output ≡ U.faults self.old.output }
        ensures answer { is_err result ≡ true }
    {
        self.over = true;
        self.output.shut();
        Err(NoMemory)
    }
}

/// The openings, where the text was due for them.
fn told_if(told: u64, due: bool, openings: u64) -> u64
    ensures { result ≡ (if due then openings else told) }
{
    if due { openings } else { told }
}

/// What a turn answers whose last send was answered so.
fn answer_of(sent: &Option<Result<(), IoFault>>) -> Result<(), NoMemory>
    ensures { is_err result ≡ wants sent.now }
{
    match sent {
        Some(Err(IoFault::NoMemory)) => Err(NoMemory),
        _ => Ok(()),
    }
}

/// Sends the bytes of what was pulled.
fn send_message<U: LinkOut>(
    alloc: Global,
    side: Side,
    output: &mut U,
    out: &Outgoing,
) -> Result<(), IoFault>
    requires { CanBeEncoded out.now }
    ensures sends { Departs (sent_by (Got.Binary (encoding side out.now)) result) false
        (U.departures output.old) (U.departures output.new) }
    ensures steady { UnlessFailed result (U.faults output.new ≡ U.faults output.old) }
    ensures failed { IfFailed result (Rises (U.faults output.old) (U.faults output.new)) }
{
    match outgoing(alloc, side, out) {
        Ok(bytes) => output.send(&bytes),
        Err(NoMemory) => Err(IoFault::NoMemory),
    }
}

/// Sends the end-of-session text where it is due.
fn send_end<U: LinkOut>(output: &mut U, due: bool) -> Option<Result<(), IoFault>>
    ensures due { is_some result ≡ due }
    ensures sends { Departs (text_by result) false (U.departures output.old)
        (U.departures output.new) }
    ensures counted { CountsFailures (failures result) (U.faults output.old) (U.faults output.new) }
{
    if !due {
        return None;
    }
    Some(output.send_text(END_SESSION))
}
