//! What comes in, from bytes.

ghost use Rattle.std.specs.Prelude.{◌≡◌, ◌⊎◌, ◌<◌, ◌^◌, ℕ, List, Ok, IfOk, All, length};
ghost use Rattle.chan_values.specs.Sides.{other};
ghost use Rattle.agent_message.specs.Layout.{IsMessage};
ghost use Rattle.channel_core.specs.Arrival.{Arrives, Hears, HearsAck, HearsClosing, HearsStream, IsAnswer, AnswerOrNoMemory};
ghost use Rattle.channel_core.specs.Exchange.{incoming_of};
ghost use Rattle.channel_core.specs.Condition.{IsNumbered};
ghost use Rattle.channel_core.specs.Wire.{CanBeEncoded, ack_body, ack_message, encoding, message_of};
ghost use Rattle.channel_core.specs.declared.message.Outgoing.{Outgoing};
ghost use Rattle.json_bodies.specs.Ack.{ack_text};

use crate::Incoming;
use crate::wire::InRefusal;
use crate::wire::encode::{FIN, data_name};
use agent_message::{Message, Name, decode};
use chan_values::{Item, Side};
use json_bodies::{Ack, ChannelClosed};
use std::alloc::Global;

/// What the bytes say to the end of this side.
pub fn incoming(alloc: Global, side: Side, bytes: &[u8]) -> Result<Incoming, InRefusal>
    ensures answer { IsAnswer (Arrives side bytes.now) result }
    ensures numbered { IfOk result IsNumbered }

    // What the other side encoded is what it emitted.
    ensures inverse { (out : Outgoing) → CanBeEncoded out → IsMessage (message_of (other side) out)
        → bytes.now ≡ encoding (other side) out → AnswerOrNoMemory result (Ok (incoming_of out)) }
{
    let message = decode(alloc, bytes)?;
    hear(alloc, side, message)
}

fn hear(alloc: Global, side: Side, message: Message) -> Result<Incoming, InRefusal>
    ensures answer { IsAnswer (Hears side message) result }
    ensures numbered { IfOk result IsNumbered }
    ensures written { (seq : ℕ) (id : List ℕ) (date : ℕ) → seq < 2 ^ 63
        → length id ≡ 16 → All (λ byte. byte < 256) id
        → message ≡ ack_message (other side) seq id date
        → AnswerOrNoMemory result (Ok (Incoming.Ack seq)) }
{
    if message.name == data_name(side.other()) {
        stream(message)
    } else if message.name == Name::acknowledge() {
        acknowledgement(alloc, message.payload.as_slice())
    } else if message.name == Name::pause_publication() {
        Ok(Incoming::Pause)
    } else if message.name == Name::start_publication() {
        Ok(Incoming::Start)
    } else if message.name == Name::channel_closed() {
        closing(alloc, message.payload.as_slice())
    } else {
        Err(InRefusal::Wrong(message.name))
    }
}

fn stream(message: Message) -> Result<Incoming, InRefusal>
    ensures answer { IsAnswer (HearsStream message) result }
    ensures numbered { IfOk result IsNumbered }
{
    if message.seq < 0 {
        return Err(InRefusal::Negative(message.seq));
    }
    let id = message.id;
    Ok(Incoming::Stream {
        seq: message.seq as u64,
        id,
        item: Item {
            ptype: message.ptype,
            payload: message.payload,
        },
        last: message.flags / FIN % 2 == 1,
    })
}

fn acknowledgement(alloc: Global, payload: &[u8]) -> Result<Incoming, InRefusal>
    ensures answer { IsAnswer (HearsAck payload.now) result }
    ensures numbered { IfOk result IsNumbered }
    ensures written { (side : Side) (seq : ℕ) (id : List ℕ) → seq < 2 ^ 63
        → length id ≡ 16 → All (λ byte. byte < 256) id
        → payload.now ≡ ack_text (ack_body side seq id)
        → AnswerOrNoMemory result (Ok (Incoming.Ack seq)) }
{
    let ack = Ack::read(alloc, payload)?;
    if ack.seq < 0 {
        return Err(InRefusal::Negative(ack.seq));
    }
    Ok(Incoming::Ack {
        seq: ack.seq as u64,
    })
}

fn closing(alloc: Global, payload: &[u8]) -> Result<Incoming, InRefusal>
    ensures answer { IsAnswer (HearsClosing payload.now) result }
    ensures numbered { IfOk result IsNumbered }
{
    let closed = ChannelClosed::read(alloc, payload)?;
    Ok(Incoming::Closing {
        output: closed.output,
    })
}
