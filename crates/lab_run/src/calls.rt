//! The calls that verbs make at an end, and what they report.

ghost use Rattle.std.specs.Prelude.{◌≡◌, ◌≤◌, ℕ, [], IfOk, length};
ghost use Rattle.chan_values.specs.Limits.{max_payload};
ghost use Rattle.chan_values.specs.Sides.{other};
ghost use Rattle.chan_values.specs.declared.side.Side.{Side};
ghost use Rattle.channel_core.specs.declared.call.EndCall.TheVariants as EndCall;
ghost use Rattle.channel_core.specs.declared.message.Incoming.TheVariants as Incoming;
ghost use Rattle.channel_core.specs.declared.message.Outgoing.{Outgoing};
ghost use Rattle.channel_core.specs.Exchange.{incoming_of};
ghost use Rattle.channel_core.specs.Condition.{IsNumbered};
ghost use Rattle.channel_core.specs.Wire.{encoding};
ghost use Rattle.lab_run.specs.Ends.{IsCalled, IsSendable};
ghost use Rattle.lab_run.specs.Steps.{id_of};

use crate::outcome::{outcome_of_heard, outcome_of_put, outcome_of_refusal};
use chan_values::{Bytes, Item, NoMemory, Side, Text};
use channel_core::wire::{incoming, outgoing};
use channel_core::{End, Incoming, Pull, Tick};
use lab_script::Outcome;
use std::alloc::Global;

/// Puts in an item, with the MessageId of the line.
pub fn put(end: &mut End, item: Item, line: u64, now: u64) -> Outcome
    requires { length item.payload ≤ max_payload }
    ensures { (side : Side) (k : ℕ) →
        IsCalled side k (EndCall.Put item (id_of line) now) end.old end.new result }
{
    outcome_of_put(end.put(item, id_of(line), now))
}

/// Puts in an item as the last of its direction, with the MessageId of the line.
pub fn put_last(end: &mut End, item: Item, line: u64, now: u64) -> Outcome
    requires { length item.payload ≤ max_payload }
    ensures { (side : Side) (k : ℕ) →
        IsCalled side k (EndCall.PutLast item (id_of line) now) end.old end.new result }
{
    outcome_of_put(end.put_last(item, id_of(line), now))
}

/// The MessageId of what a line puts in.
fn id_of(line: u64) -> [u8; 16]
    ensures { result ≡ id_of line }
{
    let mut id = [0u8; 16];
    id[8..].copy_from_slice(&line.to_be_bytes());
    id
}

/// Asks for the next message, which is the end's emission of this number.
pub fn pull(
    alloc: Global,
    side: Side,
    end: &mut End,
    number: u64,
    now: u64,
) -> Result<Outcome, NoMemory>
    ensures { IfOk result (IsCalled side number (EndCall.Pull now) end.old end.new) }
{
    match end.pull(now) {
        Pull::Emit(out) => {
            let encoding = Bytes::new(outgoing(alloc, side, &out)?);
            Ok(Outcome::Emit { number, encoding })
        }
        Pull::Idle => Ok(Outcome::Idle),
        Pull::NoMemory => Err(NoMemory),
    }
}

/// The end hears a message.
pub fn hear_message(end: &mut End, message: Incoming, now: u64) -> Result<Outcome, NoMemory>
    requires { IsNumbered message }
    ensures { (side : Side) (k : ℕ) →
        IfOk result (IsCalled side k (EndCall.Heard now message) end.old end.new) }
{
    outcome_of_heard(end.heard(now, message))
}

/// The end hears the bytes of an emission of the other end.
pub fn hear(
    alloc: Global,
    side: Side,
    end: &mut End,
    bytes: &[u8],
    now: u64,
) -> Result<Outcome, NoMemory>
    ensures { (k : ℕ) (out : Outgoing)
        → IsSendable (other side) out
        → bytes.now ≡ encoding (other side) out
        → let call = EndCall.Heard now (incoming_of out) in
        IfOk result (IsCalled side k call end.old end.new) }
{
    match incoming(alloc, side, bytes) {
        Ok(message) => hear_message(end, message, now),
        Err(refusal) => outcome_of_refusal(refusal),
    }
}

/// The end hears the relay's closing, which has no text for the user.
pub fn hear_closing(alloc: Global, end: &mut End, now: u64) -> Result<Outcome, NoMemory>
    ensures { (side : Side) (k : ℕ)
        → let call = EndCall.Heard now (Incoming.Closing []) in
        IfOk result (IsCalled side k call end.old end.new) }
{
    let output = Text::new(String::new(alloc));
    hear_message(end, Incoming::Closing { output }, now)
}

/// Looks at the timers.
pub fn tick(end: &mut End, now: u64) -> Outcome
    ensures { (side : Side) (k : ℕ) →
        IsCalled side k (EndCall.Tick now) end.old end.new result }
{
    match end.tick(now) {
        Tick::Nothing => Outcome::Nothing,
        Tick::Due(seq) => Outcome::Due(seq),
        Tick::GaveUp(seq) => Outcome::GaveUp(seq),
    }
}

/// Makes a new connection.
pub fn connect(end: &mut End, now: u64) -> Outcome
    ensures { (side : Side) (k : ℕ) →
        IsCalled side k (EndCall.Opened now) end.old end.new result }
{
    end.opened(now);
    Outcome::Quiet
}

/// Loses the connection.
pub fn disconnect(end: &mut End) -> Outcome
    ensures { (side : Side) (k : ℕ) → IsCalled side k EndCall.Lost end.old end.new result }
{
    end.lost();
    Outcome::Quiet
}

/// Closes the end.
pub fn close(end: &mut End) -> Outcome
    ensures { (side : Side) (k : ℕ) → IsCalled side k EndCall.Close end.old end.new result }
{
    end.close();
    Outcome::Quiet
}
