//! A link writer and a resend worker, with the locks that they have seats on.

ghost use Rattle.std.specs.Prelude.{◌≡◌, IfOk, length, ◌≤◌};
ghost use Rattle.turn_lock.specs.Seats.{IsSeatOf};
ghost use Rattle.chan_values.specs.Limits.{max_payload};

use super::clocks::At;
use crate::{LinkWriter, ResendDone, ResendJob, Resender, WorkerEnd, WriterDone, WriterJob};
use chan_io::{Clock, FaultyLinkOut, Got, Job, StillClock};
use chan_values::{Bytes, Item, NoMemory, Side};
use channel_core::{Heard, Incoming, Put};
use session_run::{Held, OpenGate, Shelf, end_seat, shelf_seat};
use std::alloc::Global;
use std::sync::Wait;
use turn_lock::{Seat, TurnLock};

/// The text by which the agent ends the session, by docs/SESSION.md.
const END_SESSION: &str = "{\"MessageType\":\"end_session\"}";

/// MessageId of what is put in.
const ID: [u8; 16] = [0, 0, 0, 0, 0, 0, 0, 0, 0, 0, 0, 0, 0, 0, 0, 1];

/// What is done with an end and its workers.
#[derive(Clone, Copy)]
pub(crate) enum Step {
    /// A connection is made, and noted.
    Opens,
    /// "abc" is put in, and gets this number.
    Puts(u64),
    /// The other end has the message of this number.
    Acks(u32),
    /// It is noted that the session is to finish; with `true`, after a fault.
    Finishes(bool),
    /// The end is closed.
    Closes,
    /// The writer makes a turn. These letters are then all that it sent, b for a message and t for
    /// the text that ends the session, and it is over or not.
    Writes(&'static str, bool),
    /// The resend worker makes a turn at a moment, in which the end gives up this number, and it is
    /// over or not.
    Resends(u64, Option<u64>, bool),
}

/// An end and a shelf behind their locks, the seats of a test, and two workers.
#[derive(Drop)]
pub(crate) struct Bench {
    pub(crate) ends: TurnLock<Held>,
    pub(crate) shelf: TurnLock<Shelf>,
    pub(crate) end: Seat<Held>,
    pub(crate) inbox: Seat<Shelf>,
    pub(crate) writer: LinkWriter<FaultyLinkOut>,
    pub(crate) resender: Resender,
    ghost test_end: { IsSeatOf ends end },
    ghost test_shelf: { IsSeatOf shelf inbox },
    ghost writer_end: { IsSeatOf ends writer.end },
    ghost writer_shelf: { IsSeatOf shelf writer.shelf },
    ghost resender_end: { IsSeatOf ends resender.end },
}

impl Bench {
    /// Before the first turn, with a window of ten messages and an output of which these sends
    /// fail.
    pub(crate) fn new(alloc: Global, side: Side, failing: &[u64]) -> Result<Bench, NoMemory> {
        let (ends, mut end) = TurnLock::new(alloc, Held::new(alloc, side, 10)?)?;
        let (shelf, mut inbox) = TurnLock::new(alloc, Shelf::new(alloc))?;
        let writer = LinkWriter {
            side,
            output: FaultyLinkOut::new(alloc, Vec::from_slice(alloc, failing)?),
            end: ends.split(&mut end)?,
            shelf: shelf.split(&mut inbox)?,
            told: 0,
            over: false,
        };
        let resender = Resender {
            end: ends.split(&mut end)?,
            over: false,
        };
        Ok(Bench {
            ends,
            shelf,
            end,
            inbox,
            writer,
            resender,
        })
    }

    /// Whether a step comes to what it says.
    pub(crate) fn make<R: Wait>(
        &mut self,
        rt: &R,
        alloc: Global,
        step: Step,
    ) -> Result<bool, NoMemory> {
        match step {
            Step::Opens => Ok(self.opens(rt)),
            Step::Puts(seq) => self.puts(rt, alloc, seq),
            Step::Acks(seq) => Ok(self.acks(rt, seq)),
            Step::Finishes(fault) => Ok(self.finishes(rt, fault)),
            Step::Closes => Ok(self.closes(rt)),
            Step::Writes(sent, over) => Ok(self.writes(rt, alloc, sent, over)),
            Step::Resends(now, given, over) => Ok(self.resends(rt, now, given, over)),
        }
    }

    fn opens<R: Wait>(&mut self, rt: &R) -> bool {
        end_seat::opened(rt, &self.ends, &mut self.end, &StillClock, 0);
        shelf_seat::note_opening(rt, &self.shelf, &mut self.inbox, &StillClock);
        true
    }

    fn puts<R: Wait>(&mut self, rt: &R, alloc: Global, seq: u64) -> Result<bool, NoMemory> {
        let item = item_of(alloc)?;
        let put = end_seat::put(rt, &self.ends, &mut self.end, &StillClock, item, ID, 1);
        Ok(matches!(put, Put::Seq(next) if next == seq))
    }

    fn acks<R: Wait>(&mut self, rt: &R, seq: u32) -> bool {
        let seq = u64::from(seq);
        let ack = Incoming::Ack { seq };
        let heard = end_seat::heard(rt, &self.ends, &mut self.end, &StillClock, ack, 0);
        matches!(heard, Heard::Acked(acked) if acked == seq)
    }

    fn finishes<R: Wait>(&mut self, rt: &R, fault: bool) -> bool {
        shelf_seat::note_finish(rt, &self.shelf, &mut self.inbox, &StillClock, fault);
        true
    }

    fn closes<R: Wait>(&mut self, rt: &R) -> bool {
        end_seat::close(rt, &self.ends, &mut self.end, &StillClock);
        true
    }

    fn writes<R: Wait>(&mut self, rt: &R, alloc: Global, sent: &str, over: bool) -> bool {
        let written = self.write(rt, alloc, &StillClock);
        let shut = self.writer.output.shuts() == u64::from(over);
        written && self.writer.over == over && shut && are_sent(self.writer.output.sent(), sent)
    }

    fn resends<R: Wait>(&mut self, rt: &R, now: u64, given: Option<u64>, over: bool) -> bool {
        let on = !self.resender.over;
        let number = self.resend(rt, &At(now));
        on && number == given && self.resender.over == over
    }

    /// Lets the writer make a turn. Tells whether the last was not made before, and there was
    /// memory.
    pub(crate) fn write<R: Wait, C: Clock>(&mut self, rt: &R, alloc: Global, clock: &C) -> bool {
        if self.writer.over {
            return false;
        }
        self.writer
            .turn(rt, alloc, &self.ends, &self.shelf, clock)
            .is_ok()
    }

    /// Lets the resend worker make a turn, if its last was not made. Answers the number given up.
    pub(crate) fn resend<R: Wait, C: Clock>(&mut self, rt: &R, clock: &C) -> Option<u64> {
        if self.resender.over {
            return None;
        }
        self.resender.turn(rt, &self.ends, clock)
    }

    /// Lets the writer run to its end. Answers how it ended, and how much it sent.
    pub(crate) fn write_all<R: Wait + Sync>(
        self,
        rt: &R,
        alloc: Global,
    ) -> Option<(WorkerEnd, usize)> {
        if self.writer.over {
            return None;
        }
        let Bench {
            ends,
            shelf,
            writer,
            ..
        } = self;
        let job = WriterJob {
            rt,
            alloc,
            ends: &ends,
            shelf: &shelf,
            clock: &StillClock,
            gate: &OpenGate,
            writer,
        };
        let WriterDone { writer, end } = job.run();
        Some((end, writer.output.sent().len()))
    }

    /// Lets the resend worker run to its end. Answers whether it made its last turn, and what was
    /// given up.
    pub(crate) fn resend_all<R: Wait + Sync>(self, rt: &R) -> Option<(bool, Option<u64>)> {
        if self.resender.over {
            return None;
        }
        let Bench { ends, resender, .. } = self;
        let job = ResendJob {
            rt,
            ends: &ends,
            clock: &StillClock,
            gate: &OpenGate,
            resender,
        };
        let ResendDone { resender, gave_up } = job.run();
        Some((resender.over, gave_up))
    }
}

/// An item of "abc".
fn item_of(alloc: Global) -> Result<Item, NoMemory>
    ensures { IfOk result (λ item. length item.payload ≤ max_payload) }
{
    Ok(Item {
        ptype: 1,
        payload: Bytes::new(Vec::from_slice(alloc, b"abc")?),
    })
}

/// Whether these letters tell what was sent.
fn are_sent(sent: &[Got], letters: &str) -> bool {
    let mut same = sent.len() == letters.len();
    for (got, letter) in sent.iter().zip(letters.as_bytes()) {
        same = same && letter_of(got) == *letter;
    }
    same
}

/// The letter of a message.
fn letter_of(got: &Got) -> u8 {
    match got {
        Got::Binary(_) => b'b',
        Got::Text(text) if text.as_slice() == END_SESSION.as_bytes() => b't',
        _ => b'?',
    }
}
