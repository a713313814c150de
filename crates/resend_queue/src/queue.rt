//! The send queue: messages wait here from their put to their acknowledgement.

ghost use Rattle.std.specs.Prelude.{true, false, ◌≡◌, ◌⊎◌, ◌<◌, ◌≤◌, IfOk, length};
ghost use Rattle.chan_values.specs.Limits.{max_payload, max_window};
ghost use Rattle.resend_queue.specs.Queue.{after_ack, after_mark, after_out, after_put, empty_queue, first_ready};
ghost use Rattle.resend_queue.specs.Queue.{IfStream, IsTransmittable, lowest, mark_answer, moment_of, out_of, put_answer, reopened};

use crate::answer::{Kept, Mark, Out, Sent};
use crate::slot::Slot;
use chan_values::{Item, MAX_SEQ, NoMemory};
use slot_ring::SlotRing;
use std::alloc::Global;
use std::marker::Model;

#[cfg(test)]
mod tests;

/// How often one message may be marked due.
const MAX_DUES: u64 = 3000;

/// The messages that were put in and are not acknowledged, by number.
#[derive(Drop)]
pub struct Queue {
    alloc: Global,
    window: u64,
    next: u64,
    // Its base is the lowest unacknowledged number, or the next one where there is none.
    slots: SlotRing<Slot>,
    // Of the unacknowledged messages those below it were transmitted since the last reopening.
    cursor: u64,
    // Whether the lowest message was marked due after its last transmission, and how often it was.
    due: bool,
    dues: u64,
    // Whether an item was put in as the last.
    ended: bool,
}

impl Model for Queue {
    ghost use Rattle.resend_queue.specs.Queue.{QueueState};

    ghost Value = { QueueState };

    ghost use Rattle.resend_queue.specs.Inside.{IsRetransmissionQueue, messages};

    ghost view = { λ q. record {
      window = q.window;
      next = q.next;
      pending = messages q.cursor q.due q.slots;
      dues = q.dues;
      ended = q.ended;
    } };

    ghost invariant = { λ q. IsRetransmissionQueue q.window q.next q.cursor q.due q.dues q.slots };
}

impl Queue {
    /// A queue for a window of 1 to 10,000 messages. It counts as reopened. It takes the memory for
    /// all of them, so that no put wants any.
    pub fn new(alloc: Global, window: u64) -> Result<Queue, NoMemory>
        requires low { 1 ≤ window }
        requires high { window ≤ max_window }
        ensures { IfOk result (λ queue. queue ≡ empty_queue window) }
    {
        Ok(Queue {
            alloc,
            window,
            next: 0,
            slots: SlotRing::new(alloc, 0, window as usize)?,
            cursor: 0,
            due: false,
            dues: 0,
            ended: false,
        })
    }

    /// The lowest unacknowledged number, or the next one where all are acknowledged.
    pub fn low(&self) -> u64
        ensures { result ≡ lowest self.now }
    {
        self.slots.base()
    }

    /// The next number.
    pub fn next(&self) -> u64
        ensures { result ≡ self.now.next }
    {
        self.next
    }

    /// Whether an item was put in as the last.
    pub fn ended(&self) -> bool
        ensures { result ≡ self.now.ended }
    {
        self.ended
    }

    /// Puts in an item, under the next number. It takes no memory.
    pub fn put(&mut self, item: Item, id: [u8; 16], date: u64) -> Kept
        requires short { length item.payload ≤ max_payload }
        requires dated { 0 < date }
        ensures answer { result ≡ put_answer self.old item }
        ensures state { self.new ≡ after_put self.old item id date false result }
    {
        self.add(item, id, date, false)
    }

    /// Puts in an item as the last: no item is taken after it. It takes no memory.
    pub fn put_last(&mut self, item: Item, id: [u8; 16], date: u64) -> Kept
        requires short { length item.payload ≤ max_payload }
        requires dated { 0 < date }
        ensures answer { result ≡ put_answer self.old item }
        ensures state { self.new ≡ after_put self.old item id date true result }
    {
        self.add(item, id, date, true)
    }

    /// Puts in an item, as the last or not.
    fn add(&mut self, item: Item, id: [u8; 16], date: u64, last: bool) -> Kept
        requires short { length item.payload ≤ max_payload }
        requires dated { 0 < date }
        ensures answer { result ≡ put_answer self.old item }
        ensures state { self.new ≡ after_put self.old item id date last result }
    {
        if self.ended {
            return Kept::Past(item);
        }
        if self.next == MAX_SEQ + 1 {
            return Kept::Spent(item);
        }
        let span = self.next - self.slots.base();
        if span == self.window {
            return Kept::Full(item);
        }
        let seq = self.next;
        let message = Slot {
            id,
            date,
            item,
            last,
            emitted: None,
        };
        let _none = self.slots.set(seq, message);
        self.next += 1;
        self.ended = last;
        Kept::Seq(seq)
    }

    /// Takes an acknowledgement, and tells the moment of the number's last transmission. `None`
    /// where the number is not one that was transmitted and is not acknowledged.
    pub fn acked(&mut self, seq: u64) -> Option<u64>
        ensures answer { result ≡ moment_of self.old seq }
        ensures state { self.new ≡ after_ack self.old seq result }
    {
        let moment = self.moment(seq)?;
        let low = self.slots.base();
        let _acked = self.slots.remove(seq);
        if seq != low {
            return Some(moment);
        }
        self.slots.skip(self.next);
        self.cursor = self.cursor.max(self.slots.base());
        self.due = false;
        self.dues = 0;
        Some(moment)
    }

    /// The moment of a number's last transmission.
    fn moment(&self, seq: u64) -> Option<u64>
        ensures { result ≡ moment_of self.now seq }
    {
        match self.slots.get(seq) {
            Some(slot) => slot.emitted,
            None => None,
        }
    }

    /// Looks at the timer of the lowest unacknowledged message, and marks the message where the
    /// timer has expired. A message is marked 3,000 times at most.
    pub fn mark_due(&mut self, now: u64, timeout: u64) -> Mark
        ensures answer { result ≡ mark_answer self.old now timeout }
        ensures state { self.new ≡ after_mark self.old result }
    {
        let low = self.slots.base();
        let Some(slot) = self.slots.get(low) else {
            return Mark::Nothing;
        };
        let sent = low < self.cursor;
        if !slot.is_overdue(sent, self.due, now, timeout) {
            return Mark::Nothing;
        }
        if self.dues >= MAX_DUES {
            return Mark::GaveUp(low);
        }
        self.dues += 1;
        self.due = true;
        Mark::Due(low)
    }

    /// The lowest message that may be transmitted: not yet on this connection, or marked due. It
    /// counts as transmitted at this moment.
    pub fn next_out(&mut self, now: u64) -> Out
        ensures answer { (result ≡ out_of (first_ready self.old)) ⊎ (result ≡ Out.NoMemory) }
        ensures state { self.new ≡ after_out self.old now result }
        ensures transmittable { IfStream result IsTransmittable }
    {
        let low = self.slots.base();
        self.cursor = self.slots.next_taken(self.cursor, self.next);
        let seq = first_to_send(low, self.cursor, self.due);
        let Some(slot) = self.slots.get(seq) else {
            return Out::Idle;
        };
        let Ok(item) = slot.item.copy(self.alloc) else {
            return Out::NoMemory;
        };
        let id = slot.id;
        let date = slot.date;
        let last = slot.last;
        let emitted = Some(now);
        let kept = Slot {
            id,
            date,
            item,
            last,
            emitted,
        };
        let Some(first) = self.slots.set(seq, kept) else {
            unreachable!()
        };
        self.cursor = self.cursor.max(seq + 1);
        self.due = false;
        let item = first.item;
        Out::Stream(Sent {
            seq,
            id,
            date,
            item,
            last,
        })
    }

    /// Begins a new connection: each message may be transmitted on it.
    pub fn reopen(&mut self)
        ensures { self.new ≡ reopened self.old }
    {
        let low = self.slots.base();
        self.cursor = low;
    }
}

/// The first number that may be transmitted: the lowest one where it was transmitted and is marked,
/// or else the cursor.
fn first_to_send(low: u64, cursor: u64, due: bool) -> u64
    requires { low ≤ cursor }
    ensures marked { due ≡ true → result ≡ low }
    ensures unmarked { due ≡ false → result ≡ cursor }
    ensures within { result ≤ cursor }
{
    if due && low < cursor { low } else { cursor }
}
