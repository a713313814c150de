//! What an end gave out, by number: whether the other end may hear it, and whether it went out before
//! on the present connection. Each question takes the time of one look.

ghost use Rattle.std.specs.Prelude.{◌≡◌, ℕ, ◌<◌, ◌^◌, Some, List, OnOk, length, slice_get};
ghost use Rattle.std.specs.Bool.{Decides};
ghost use Rattle.channel_core.specs.Numbers.{has_number};
ghost use Rattle.session_audit.specs.Acts.{outs_of};
ghost use Rattle.session_audit.specs.Looking.{AnyGives, GivesOut, sent_in};
ghost use Rattle.session_audit.specs.Marks.{AreMarks, AreOne, IsMarked, Notes, PutsMark, first_place, mark_of, no_marks};
ghost use Rattle.session_audit.specs.Moves.{IsHeardOf};
ghost use Rattle.session_audit.specs.declared.act.Act.TheVariants as Act;

use crate::act::Act;
use crate::reading::Saying;
use crate::replay::is_same_item;
use chan_values::NoMemory;
use channel_core::{Incoming, Outgoing};
use resend_queue::Sent;
use std::alloc::Global;
use std::marker::Model;

/// What is known of one number.
#[derive(Clone, Copy, Debug, PartialEq, Eq)]
pub struct Mark {
    /// Where the saying stands by which a stream message with this number went out first.
    pub place: Option<usize>,
    /// One more than the place of the last such saying, or 0.
    pub last: usize,
    /// Whether it was acknowledged.
    pub acked: bool,
}

/// The mark of a number of which nothing is known.
const NO_MARK: Mark = Mark {
    place: None,
    last: 0,
    acked: false,
};

/// The marks of an end, by number.
#[derive(Drop)]
pub struct Marks {
    marks: Vec<Mark>,
    // One more than the place of the last opening, or 0.
    opened: usize,
}

impl Model for Marks {
    ghost use Rattle.session_audit.specs.Marks.{MarksState};

    ghost Value = { MarksState };

    ghost view = { λ m. record { marks = m.marks.items; opened = m.opened } };
}

impl Marks {
    /// The marks of an end that did nothing.
    pub fn new(alloc: Global) -> Marks
        ensures { result ≡ no_marks }
    {
        Marks {
            marks: Vec::new(alloc),
            opened: 0,
        }
    }

    /// Notes an act that a saying at this place says. On want of memory the marks are of no use.
    pub fn note(&mut self, place: usize, act: &Act) -> Result<(), NoMemory>
        requires { place < 2 ^ 63 }
        ensures { OnOk result (Notes self.old self.new place act.now) }
    {
        match act {
            Act::Emits(out) => self.note_out(place, out),
            Act::Opens => {
                self.opened = place + 1;
                Ok(())
            }
            _ => Ok(()),
        }
    }

    /// Notes what was given out.
    fn note_out(&mut self, place: usize, out: &Outgoing) -> Result<(), NoMemory>
        requires { place < 2 ^ 63 }
        ensures { OnOk result (Notes self.old self.new place (Act.Emits out.now)) }
    {
        match out {
            Outgoing::Stream(sent) => self.note_stream(place, sent.seq),
            Outgoing::Ack { seq, .. } => {
                let old = self.mark(*seq);
                let mark = Mark {
                    place: old.place,
                    last: old.last,
                    acked: true,
                };
                self.put(*seq, mark)
            }
        }
    }

    /// Notes a stream message with this number.
    fn note_stream(&mut self, place: usize, seq: u64) -> Result<(), NoMemory>
        requires { place < 2 ^ 63 }
        ensures { OnOk result (PutsMark self.old self.new seq
            (IsMarked place (mark_of self.old seq))) }
    {
        let old = self.mark(seq);
        let mark = Mark {
            place: first_of(old.place, place),
            last: place + 1,
            acked: old.acked,
        };
        self.put(seq, mark)
    }

    /// Whether a stream message with this number went out since the last opening.
    pub fn was_sent(&self, seq: u64) -> bool
        ensures { (sayings : List Saying) (acts : List Act) (before : ℕ)
            → AreMarks self.now sayings acts before
            → result ≡ has_number (sent_in acts) seq }
    {
        self.opened < self.mark(seq).last
    }

    /// Whether what an act hears, if anything, was given out. What the relay sends may always come.
    pub fn was_given(&self, sayings: &[Saying], act: &Act) -> bool
        ensures { (acts : List Act) (before : ℕ)
            → AreMarks self.now sayings.now acts before
            → AreOne acts
            → Decides result (IsHeardOf (outs_of acts) act.now) }
    {
        match act {
            Act::Hears(incoming) => self.is_known(sayings, incoming),
            _ => true,
        }
    }

    /// Whether what is heard was given out, or comes from the relay.
    fn is_known(&self, sayings: &[Saying], incoming: &Incoming) -> bool
        ensures { (acts : List Act) (before : ℕ)
            → AreMarks self.now sayings.now acts before
            → AreOne acts
            → Decides result (IsHeardOf (outs_of acts) (Act.Hears incoming.now)) }
    {
        match incoming {
            Incoming::Stream { seq, .. } => match self.mark(*seq).place {
                Some(place) => is_said_at(sayings, place, incoming),
                None => false,
            },
            Incoming::Ack { seq } => self.mark(*seq).acked,
            _ => true,
        }
    }

    /// The mark of a number.
    fn mark(&self, seq: u64) -> Mark
        ensures { result ≡ mark_of self.now seq }
    {
        if seq < self.marks.len() as u64 {
            self.marks[seq as usize]
        } else {
            NO_MARK
        }
    }

    /// Puts the mark of a number in place.
    fn put(&mut self, seq: u64, mark: Mark) -> Result<(), NoMemory>
        ensures { OnOk result (PutsMark self.old self.new seq (λ m. m ≡ mark)) }
    {
        self.reach(seq)?;
        self.marks[seq as usize] = mark;
        Ok(())
    }

    /// Makes room for a number, with marks of which nothing is known.
    fn reach(&mut self, seq: u64) -> Result<(), NoMemory>
        ensures room { OnOk result (seq < length self.new.marks) }
        ensures opened { OnOk result (self.new.opened ≡ self.old.opened) }
        ensures kept { OnOk result ((k : ℕ) → mark_of self.new k ≡ mark_of self.old k) }
    {
        while self.marks.len() as u64 <= seq {
            self.marks.push(NO_MARK)?;
        }
        Ok(())
    }
}

/// The first place: the one that was known, or else this one.
fn first_of(known: Option<usize>, place: usize) -> Option<usize>
    ensures { result ≡ first_place known place }
{
    match known {
        Some(first) => Some(first),
        None => Some(place),
    }
}

/// Whether the saying at a place says that what is heard went out.
fn is_said_at(sayings: &[Saying], place: usize, incoming: &Incoming) -> bool
    ensures { (saying : Saying) (act : Act)
        → slice_get sayings.now place ≡ Some saying
        → saying.act ≡ Some act
        → Decides result (GivesOut incoming.now act) }
{
    if place >= sayings.len() {
        return false;
    }
    match &sayings[place].act {
        Some(act) => gives_out(act, incoming),
        None => false,
    }
}

/// Whether an act gives out what is heard.
fn gives_out(act: &Act, incoming: &Incoming) -> bool
    ensures { Decides result (GivesOut incoming.now act.now) }
{
    match act {
        Act::Emits(out) => is_heard_as(out, incoming),
        _ => false,
    }
}

/// Whether a message is heard so.
fn is_heard_as(out: &Outgoing, incoming: &Incoming) -> bool
    ensures { Decides result (GivesOut incoming.now (Act.Emits out.now)) }
{
    match (out, incoming) {
        (
            Outgoing::Stream(sent),
            Incoming::Stream {
                seq,
                id,
                item,
                last,
            },
        ) => {
            sent.seq == *seq
                && sent.id == *id
                && sent.last == *last
                && is_same_item(&sent.item, item)
        }
        (Outgoing::Ack { seq: given, .. }, Incoming::Ack { seq }) => *given == *seq,
        _ => false,
    }
}
