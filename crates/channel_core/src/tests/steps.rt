//! The calls of an end with the answers that they are to get.

ghost use Rattle.std.specs.Prelude.{◌≤◌, IfOk, length};
ghost use Rattle.chan_values.specs.Limits.{max_payload};

use crate::{End, Heard, Incoming, Outgoing, Pull, Put, Tick};
use chan_values::{Bytes, Item, Text};
use std::alloc::Global;
use std::test::Fail;

const ID: [u8; 16] = *b"an id of letters";

/// A call of an end with the answer that it is to get. An item has one byte, and each put is at 0.
#[derive(Clone, Copy)]
pub enum Step {
    Opened(u64),
    Lost,
    Close,
    /// An item that gets this number.
    Put(u8, u64),
    /// The same, as the last.
    PutLast(u8, u64),
    /// An item that comes back.
    Refused(u8, Why),
    /// A stream message: its number, its byte, and whether it is the last.
    Hear(u32, u8, bool, Told<'static>),
    /// An acknowledgement, at a moment, and whether it counts.
    HearAck(u64, u32, bool),
    Pause,
    Start,
    Bye,
    /// At a moment the stream message with this number and byte goes out, as the last or not.
    Sends(u64, u64, u8, bool),
    /// At a moment the acknowledgement of this number goes out.
    Acks(u64, u64),
    Idle(u64),
    Tick(u64, Tick),
}

/// Why an item comes back.
#[derive(Clone, Copy)]
pub enum Why {
    Closed,
    Past,
    Full,
}

/// What a stream message is answered.
#[derive(Clone, Copy)]
pub enum Told<'a> {
    /// Items of these bytes are released, in this order.
    Released(&'a [u8]),
    Finished(&'a [u8]),
    Late,
    Beyond,
    PastEnd(u64),
    AfterClose,
}

/// An item of one byte.
fn item(alloc: Global, byte: u8) -> Result<Item, Fail>
    ensures { IfOk result (λ item. length item.payload ≤ max_payload) }
{
    Ok(Item {
        ptype: 1,
        payload: Bytes::new(vec![in alloc; byte]?),
    })
}

/// Whether this is an item of that byte.
fn is_item(item: &Item, byte: u8) -> bool {
    item.ptype == 1 && item.payload.as_slice() == [byte].as_slice()
}

/// Whether these are items of those bytes.
fn are_items(items: &[Item], bytes: &[u8]) -> bool {
    let mut same = items.len() == bytes.len();
    for (item, byte) in items.iter().zip(bytes) {
        same = same && is_item(item, *byte);
    }
    same
}

/// Whether a put is answered with this number.
fn puts(end: &mut End, alloc: Global, byte: u8, seq: u64, last: bool) -> Result<bool, Fail> {
    let item = item(alloc, byte)?;
    let put = if last {
        end.put_last(item, ID, 0)
    } else {
        end.put(item, ID, 0)
    };
    Ok(matches!(put, Put::Seq(next) if next == seq))
}

/// Whether a put is refused for this reason, and the item comes back.
fn refuses(end: &mut End, alloc: Global, byte: u8, why: Why) -> Result<bool, Fail> {
    let put = end.put(item(alloc, byte)?, ID, 0);
    let back = match (&put, why) {
        (Put::Closed(item), Why::Closed) => is_item(item, byte),
        (Put::Past(item), Why::Past) => is_item(item, byte),
        (Put::Full(item), Why::Full) => is_item(item, byte),
        _ => false,
    };
    Ok(back)
}

/// Whether a stream message is answered so.
fn hears(
    end: &mut End,
    alloc: Global,
    seq: u32,
    byte: u8,
    last: bool,
    told: Told,
) -> Result<bool, Fail> {
    let incoming = Incoming::Stream {
        seq: u64::from(seq),
        id: ID,
        item: item(alloc, byte)?,
        last,
    };
    let heard = end.heard(0, incoming);
    Ok(is_told(&heard, told))
}

/// Whether this is that answer.
fn is_told(heard: &Heard, told: Told) -> bool {
    match (heard, told) {
        (Heard::Released(items), Told::Released(bytes)) => are_items(items.as_slice(), bytes),
        (Heard::Finished(items), Told::Finished(bytes)) => are_items(items.as_slice(), bytes),
        (Heard::Late, Told::Late) => true,
        (Heard::Beyond, Told::Beyond) => true,
        (Heard::PastEnd(end), Told::PastEnd(number)) => *end == number,
        (Heard::AfterClose, Told::AfterClose) => true,
        _ => false,
    }
}

/// Whether an acknowledgement of this number counts, or does not.
fn hears_ack(end: &mut End, now: u64, number: u32, counts: bool) -> bool {
    let seq = u64::from(number);
    match end.heard(now, Incoming::Ack { seq }) {
        Heard::Acked(acked) => counts && acked == seq,
        Heard::UnknownAck(unknown) => !counts && unknown == seq,
        _ => false,
    }
}

/// Whether an end hears the relay.
fn hears_relay(end: &mut End, alloc: Global, step: Step) -> Result<bool, Fail> {
    let heard = match step {
        Step::Pause => end.heard(0, Incoming::Pause),
        Step::Start => end.heard(0, Incoming::Start),
        _ => {
            let output = Text::new(String::from_str(alloc, "bye")?);
            end.heard(0, Incoming::Closing { output })
        }
    };
    let is_due = match step {
        Step::Pause => matches!(heard, Heard::Paused),
        Step::Start => matches!(heard, Heard::Started),
        _ => matches!(heard, Heard::Ended),
    };
    Ok(is_due)
}

/// Whether the stream message with this number goes out, with the date and the id of its put.
fn sends(end: &mut End, now: u64, seq: u64, byte: u8, last: bool) -> bool {
    match end.pull(now) {
        Pull::Emit(Outgoing::Stream(sent)) => {
            let same = sent.seq == seq && sent.date == 1 && sent.id == ID && sent.last == last;
            same && is_item(&sent.item, byte)
        }
        _ => false,
    }
}

/// Whether the acknowledgement of this number goes out, with the id of what was heard.
fn acknowledges(end: &mut End, now: u64, number: u64) -> bool {
    match end.pull(now) {
        Pull::Emit(Outgoing::Ack { seq, id, date }) => {
            seq == number && id == ID && date == now.max(1)
        }
        _ => false,
    }
}

/// Whether the end answers this call so.
fn answers(end: &mut End, alloc: Global, step: Step) -> Result<bool, Fail> {
    let is_due = match step {
        Step::Opened(now) => {
            end.opened(now);
            true
        }
        Step::Lost => {
            end.lost();
            true
        }
        Step::Close => {
            end.close();
            true
        }
        Step::Put(byte, seq) => puts(end, alloc, byte, seq, false)?,
        Step::PutLast(byte, seq) => puts(end, alloc, byte, seq, true)?,
        Step::Refused(byte, why) => refuses(end, alloc, byte, why)?,
        Step::Hear(seq, byte, last, told) => hears(end, alloc, seq, byte, last, told)?,
        Step::HearAck(now, seq, counts) => hears_ack(end, now, seq, counts),
        Step::Pause | Step::Start | Step::Bye => hears_relay(end, alloc, step)?,
        Step::Sends(now, seq, byte, last) => sends(end, now, seq, byte, last),
        Step::Acks(now, seq) => acknowledges(end, now, seq),
        Step::Idle(now) => matches!(end.pull(now), Pull::Idle),
        Step::Tick(now, tick) => end.tick(now) == tick,
    };
    Ok(is_due)
}

/// How many of these calls get the answer that is due, up to the first that does not.
pub fn run(end: &mut End, alloc: Global, steps: &[Step]) -> Result<usize, Fail> {
    for (place, step) in steps.iter().enumerate() {
        if !answers(end, alloc, *step)? {
            return Ok(place);
        }
    }
    Ok(steps.len())
}
