//! A message of a journal as an emission.

ghost use Rattle.std.specs.Prelude.{◌≡◌, ◌⊎◌, ◌≤◌, Some, Err, IfOk, IfErr, OnOk, length};
ghost use Rattle.std.specs.Bool.{Decides};
ghost use Rattle.std.specs.Option.{IfSome};
ghost use Rattle.chan_values.specs.declared.side.Side.{Side};
ghost use Rattle.chan_values.specs.Sides.{other};
ghost use Rattle.channel_core.specs.Arrival.{Arrives};
ghost use Rattle.channel_core.specs.Exchange.{incoming_of};
ghost use Rattle.channel_core.specs.Condition.{IsNumbered};
ghost use Rattle.channel_core.specs.Wire.{CanBeEncoded, message_of};
ghost use Rattle.channel_core.specs.declared.message.Outgoing.{Outgoing};
ghost use Rattle.channel_core.specs.declared.wire.InRefusal.{InRefusal};
ghost use Rattle.session_audit.specs.Journal.{IsEmission, IsSendable};

use agent_message::{Message, decode};
use chan_values::{Item, NoMemory, Side};
use channel_core::wire::{InRefusal, incoming, outgoing};
use channel_core::{Incoming, Outgoing};
use resend_queue::Sent;
use std::alloc::Global;

/// The emission of which these bytes are the encoding, if there is one. The end that hears it judges
/// the bytes first; what the relay sends, and what is not spelled as an end spells it, is none.
pub fn emitted(alloc: Global, hearer: Side, bytes: &[u8]) -> Result<Option<Outgoing>, InRefusal>
    ensures found { IfOk result (λ found. IfSome found (IsEmission (other hearer) bytes.now)) }
    ensures only { IfOk result (λ found. (out : Outgoing)
        → IsEmission (other hearer) bytes.now out → found ≡ Some out) }
    ensures refused { IfErr result (λ e. (e ≡ InRefusal.NoMemory) ⊎ Arrives hearer bytes.now (Err e)) }
    ensures judged { OnOk result ((e : InRefusal) → Arrives hearer bytes.now (Err e) → ⊥) }
{
    match incoming(alloc, hearer, bytes) {
        Ok(heard) => match spelled(alloc, hearer, heard, bytes) {
            Ok(found) => Ok(found),
            Err(NoMemory) => Err(InRefusal::NoMemory),
        },
        Err(refusal) => Err(refusal),
    }
}

/// The emission that is heard so and spelled so.
fn spelled(
    alloc: Global,
    hearer: Side,
    heard: Incoming,
    bytes: &[u8],
) -> Result<Option<Outgoing>, NoMemory>
    requires { IsNumbered heard }
    ensures found { IfOk result (λ found. IfSome found (IsEmission (other hearer) bytes.now)) }
    ensures only { IfOk result (λ found. (out : Outgoing) → heard ≡ incoming_of out
        → IsEmission (other hearer) bytes.now out → found ≡ Some out) }
{
    match decode(alloc, bytes) {
        Ok(message) => match candidate(heard, message) {
            Some(out) => compared(alloc, hearer.other(), out, bytes),
            None => Ok(None),
        },
        Err(_) => Err(NoMemory),
    }
}

/// The one emission that may be heard and read so.
fn candidate(heard: Incoming, message: Message) -> Option<Outgoing>
    requires number { IsNumbered heard }
    requires payload { length message.payload ≤ 65536 }
    ensures fits { IfSome result CanBeEncoded }
    ensures only { (side : Side) (out : Outgoing) → CanBeEncoded out → heard ≡ incoming_of out
        → message ≡ message_of side out → result ≡ Some out }
{
    if message.date == 0 {
        return None;
    }
    let id = message.id;
    match heard {
        Incoming::Stream { seq, last, .. } => Some(Outgoing::Stream(Sent {
            seq,
            id,
            date: message.date,
            item: Item {
                ptype: message.ptype,
                payload: message.payload,
            },
            last,
        })),
        Incoming::Ack { seq } => Some(Outgoing::Ack {
            seq,
            id,
            date: message.date,
        }),
        _ => None,
    }
}

/// The emission, where the bytes are its encoding.
fn compared(
    alloc: Global,
    sender: Side,
    out: Outgoing,
    bytes: &[u8],
) -> Result<Option<Outgoing>, NoMemory>
    requires { CanBeEncoded out }
    ensures found { IfOk result (λ found. IfSome found (IsEmission sender bytes.now)) }
    ensures only { IfOk result (λ found. IsEmission sender bytes.now out → found ≡ Some out) }
{
    let encoding = outgoing(alloc, sender, &out)?;
    if encoding.as_slice() == bytes {
        Ok(Some(out))
    } else {
        Ok(None)
    }
}
