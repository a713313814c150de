//! One end of the data channel.
//!
//! Four calls bring input: `put` an item of the user (`put_last` the last one), `heard` a message of the other end or the
//! relay, `opened` and `lost` the state of the connection. `pull` polls for a message to transmit,
//! `tick` serves the retransmission timer. A driver pulls until Idle after each input and each
//! tick, and ticks from time to time. All moments are milliseconds.
//!
//! ```text
//!              opened              heard Pause
//!   not up  ------------>   up   ------------->  paused
//!           <------------        <-------------
//!               lost               heard Start
//!
//!   close, heard Closing or GaveUp, in any state: closed for good
//! ```

ghost use Rattle.std.specs.Prelude.{◌≡◌, ◌≤◌, ◌<◌, ◌^◌, ℕ, false, [], IfOk, length};
ghost use Rattle.chan_values.specs.Limits.{max_payload, max_window};
ghost use Rattle.channel_core.specs.Condition.{CanBeEncoded, IfEmitted, IsNumbered};
ghost use Rattle.channel_core.specs.Stands.{Follows, Stands, put_answer_of, room_of};
ghost use Rattle.channel_core.specs.declared.call.EndAnswer.TheVariants as EndAnswer;
ghost use Rattle.channel_core.specs.declared.call.EndCall.TheVariants as EndCall;
ghost use Rattle.channel_core.specs.declared.message.Incoming.TheVariants as Incoming;

use crate::owed::Owed;
use crate::{Heard, Incoming, Look, Outgoing, Pull, Put, Tick};
use chan_values::{Item, NoMemory, Side};
use receive_window::{Take, Window};
use resend_queue::{Estimate, Kept, Mark, Out, Queue};
use std::alloc::Global;
use std::marker::Model;

/// One end of the data channel. It holds no clock and no connection.
#[derive(Drop)]
pub struct End {
    window: u64,
    queue: Queue,
    received: Window,
    estimate: Estimate,
    owed: Owed,
    up: bool,
    paused: bool,
    closed: bool,
}

impl Model for End {
    ghost use Rattle.std.specs.Prelude.{◌≡◌};
    ghost use Rattle.channel_core.specs.Stands.{EndState};

    ghost Value = { EndState };

    ghost view = { λ e. record {
      queue = e.queue;
      received = e.received;
      estimate = e.estimate;
      owed = e.owed.acks;
      up = e.up;
      paused = e.paused;
      closed = e.closed;
    } };

    ghost invariant = { λ e. (e.received.window ≡ e.window) × (e.owed.limit ≡ e.window) };
}

impl End {
    /// A new end, which is not connected, for a window of 1 to 10,000 messages. It takes the memory for
    /// all of them and for what they owe. The side is not kept: `wire::outgoing` and `wire::incoming`
    /// are told it.
    pub fn new(alloc: Global, _side: Side, window: u64) -> Result<End, NoMemory>
        requires low { 1 ≤ window }
        requires high { window ≤ max_window }
        ensures { IfOk result (λ end. Stands window end []) }
    {
        Ok(End {
            window,
            queue: Queue::new(alloc, window)?,
            received: Window::new(alloc, window)?,
            estimate: Estimate::new(),
            owed: Owed::new(alloc, window)?,
            up: false,
            paused: false,
            closed: false,
        })
    }

    /// A connection was made. Each unacknowledged message may go out on it.
    pub fn opened(&mut self, now: u64)
        ensures { Follows self.old self.new (EndCall.Opened now) EndAnswer.Done }
    {
        self.up = true;
        self.paused = false;
        self.queue.reopen();
    }

    /// The connection was lost. Nothing goes out until the next one.
    pub fn lost(&mut self)
        ensures { Follows self.old self.new EndCall.Lost EndAnswer.Done }
    {
        self.up = false;
    }

    /// Closes the end for good.
    pub fn close(&mut self)
        ensures { Follows self.old self.new EndCall.Close EndAnswer.Done }
    {
        self.closed = true;
    }

    /// Puts in an item of the user with a MessageId. It takes no memory.
    pub fn put(&mut self, item: Item, id: [u8; 16], now: u64) -> Put
        requires { length item.payload ≤ max_payload }
        ensures { Follows self.old self.new (EndCall.Put item id now) (EndAnswer.Put result) }
    {
        if self.closed {
            return Put::Closed(item);
        }
        put_answer(self.queue.put(item, id, now.max(1)))
    }

    /// Puts in an item of the user as the last: from then on each put is Past. What the end hears goes
    /// on. It takes no memory.
    pub fn put_last(&mut self, item: Item, id: [u8; 16], now: u64) -> Put
        requires { length item.payload ≤ max_payload }
        ensures { Follows self.old self.new (EndCall.PutLast item id now) (EndAnswer.Put result) }
    {
        if self.closed {
            return Put::Closed(item);
        }
        put_answer(self.queue.put_last(item, id, now.max(1)))
    }

    /// The next message to transmit: an acknowledgement that is owed, or else a stream message.
    pub fn pull(&mut self, now: u64) -> Pull
        ensures follows { Follows self.old self.new (EndCall.Pull now) (EndAnswer.Pull result) }
        ensures encodable { IfEmitted result CanBeEncoded }
    {
        if self.closed || !self.up {
            return Pull::Idle;
        }
        if let Some(ack) = self.owed.pop() {
            let (seq, id) = ack;
            return Pull::Emit(Outgoing::Ack {
                seq,
                id,
                date: now.max(1),
            });
        }
        if self.paused {
            return Pull::Idle;
        }
        match self.queue.next_out(now) {
            Out::Stream(sent) => Pull::Emit(Outgoing::Stream(sent)),
            Out::Idle => Pull::Idle,
            Out::NoMemory => Pull::NoMemory,
        }
    }

    /// Hears a message of the other end or the relay. It takes memory for the list of released items
    /// alone.
    pub fn heard(&mut self, now: u64, incoming: Incoming) -> Heard
        requires { IsNumbered incoming }
        ensures { Follows self.old self.new (EndCall.Heard now incoming) (EndAnswer.Heard result) }
    {
        if self.closed {
            return Heard::AfterClose;
        }
        match incoming {
            Incoming::Stream {
                seq,
                id,
                item,
                last,
            } => self.hear_stream(seq, id, item, last),
            Incoming::Ack { seq } => self.hear_ack(now, seq),
            Incoming::Pause => {
                self.paused = true;
                Heard::Paused
            }
            Incoming::Start => {
                self.paused = false;
                Heard::Started
            }
            Incoming::Closing { .. } => {
                self.closed = true;
                Heard::Ended
            }
        }
    }

    /// Hears a stream message.
    fn hear_stream(&mut self, seq: u64, id: [u8; 16], item: Item, last: bool) -> Heard
        requires open { self.old.closed ≡ false }
        requires number { seq < 2 ^ 63 }
        ensures { (now : ℕ)
            → (let call = EndCall.Heard now (Incoming.Stream seq id item last) in
            Follows self.old self.new call (EndAnswer.Heard result)) }
    {
        match self.received.take(seq, item, last) {
            Take::Released(items) => {
                self.owed.note(seq, id);
                Heard::Released(items)
            }
            Take::Finished(items) => {
                self.owed.note(seq, id);
                Heard::Finished(items)
            }
            Take::Late => {
                self.owed.note(seq, id);
                Heard::Late
            }
            Take::Beyond => Heard::Beyond,
            Take::PastEnd(end) => Heard::PastEnd(end),
            Take::NoMemory(item) => Heard::NoMemory(Incoming::Stream {
                seq,
                id,
                item,
                last,
            }),
        }
    }

    /// Hears an acknowledgement.
    fn hear_ack(&mut self, now: u64, seq: u64) -> Heard
        requires { self.old.closed ≡ false }
        ensures { let call = EndCall.Heard now (Incoming.Ack seq) in
            Follows self.old self.new call (EndAnswer.Heard result) }
    {
        match self.queue.acked(seq) {
            Some(moment) => {
                self.estimate.sample(now.saturating_sub(moment));
                Heard::Acked(seq)
            }
            None => Heard::UnknownAck(seq),
        }
    }

    /// Serves the retransmission timer of the lowest unacknowledged message.
    pub fn tick(&mut self, now: u64) -> Tick
        ensures { Follows self.old self.new (EndCall.Tick now) (EndAnswer.Tick result) }
    {
        if self.closed || !self.up {
            return Tick::Nothing;
        }
        match self.queue.mark_due(now, self.estimate.timeout()) {
            Mark::Nothing => Tick::Nothing,
            Mark::Due(seq) => Tick::Due(seq),
            Mark::GaveUp(seq) => {
                self.closed = true;
                Tick::GaveUp(seq)
            }
        }
    }

    /// Where the end stands.
    pub fn look(&self) -> Look
        ensures { Follows self.now self.now EndCall.Look (EndAnswer.Look result) }
    {
        Look {
            next: self.queue.next(),
            low: self.queue.low(),
            expected: self.received.expected(),
            room: self.room(),
            closed: self.closed,
            finished: self.queue.ended(),
        }
    }

    /// How many items may be put in.
    fn room(&self) -> u64
        ensures { result ≡ room_of self.now }
    {
        if self.closed || self.queue.ended() {
            return 0;
        }
        let waiting = self.queue.next().saturating_sub(self.queue.low());
        self.window.saturating_sub(waiting)
    }
}

/// The answer of an end to a put, by that of its queue.
fn put_answer(kept: Kept) -> Put
    ensures { result ≡ put_answer_of kept }
{
    match kept {
        Kept::Seq(seq) => Put::Seq(seq),
        Kept::Past(item) => Put::Past(item),
        Kept::Spent(item) => Put::Spent(item),
        Kept::Full(item) => Put::Full(item),
    }
}
