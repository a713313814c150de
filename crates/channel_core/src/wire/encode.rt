//! What an end emits, as bytes.

ghost use Rattle.std.specs.Prelude.{◌≡◌, ◌<◌, ◌^◌, codes, pos, IfOk, OnOk};
ghost use Rattle.agent_message.specs.Layout.{IsMessage, canonical};
ghost use Rattle.resend_queue.specs.Queue.{IsTransmittable};
ghost use Rattle.channel_core.specs.Wire.{CanBeEncoded, ack_body, ack_message, data_name, encoding, message_of, stream_flags, stream_message};

use crate::Outgoing;
use agent_message::{Head, Name, encode_parts};
use chan_values::{NoMemory, Side, Text};
use json_bodies::Ack;
use resend_queue::Sent;
use std::alloc::Global;

/// SchemaVersion, the only one that is written.
const SCHEMA: u32 = 1;

/// The flag of the first stream message of a side.
const SYN: u64 = 1;

/// The flag of the last stream message of a side.
pub(crate) const FIN: u64 = 2;

/// The bytes of what an end of this side emits. A payload is copied once, into them.
pub fn outgoing(alloc: Global, side: Side, out: &Outgoing) -> Result<Vec<u8>, NoMemory>
    requires { CanBeEncoded out.now }
    ensures encoded { IfOk result (λ bytes. bytes.items ≡ encoding side out.now) }
    ensures typed { OnOk result (IsMessage (message_of side out.now)) }
{
    match out {
        Outgoing::Stream(sent) => stream_bytes(alloc, side, sent),
        Outgoing::Ack { seq, id, date } => ack_bytes(alloc, side, *seq, id, *date),
    }
}

fn stream_bytes(alloc: Global, side: Side, sent: &Sent) -> Result<Vec<u8>, NoMemory>
    requires { IsTransmittable sent.now }
    ensures encoded { IfOk result (λ bytes.
        bytes.items ≡ canonical (stream_message side sent.now)) }
    ensures typed { OnOk result (IsMessage (stream_message side sent.now)) }
{
    let head = stream_head(side, sent);
    encode_parts(alloc, &head, sent.item.payload.as_slice())
}

fn stream_head(side: Side, sent: &Sent) -> Head
    requires { sent.now.seq < 2 ^ 63 }
    ensures { result
        ≡ record {
          name = data_name side;
          schema = 1;
          date = sent.now.date;
          seq = pos sent.now.seq;
          flags = stream_flags sent.now.seq sent.now.last;
          id = sent.now.id;
          ptype = sent.now.item.ptype;
        } }
{
    Head {
        name: data_name(side),
        schema: SCHEMA,
        date: sent.date,
        seq: sent.seq as i64,
        flags: stream_flags(sent.seq, sent.last),
        id: sent.id,
        ptype: sent.item.ptype,
    }
}

fn ack_bytes(
    alloc: Global,
    side: Side,
    seq: u64,
    id: &[u8; 16],
    date: u64,
) -> Result<Vec<u8>, NoMemory>
    requires small { seq < 2 ^ 63 }
    requires dated { 0 < date }
    ensures encoded { IfOk result (λ bytes.
        bytes.items ≡ canonical (ack_message side seq id.now date)) }
    ensures typed { OnOk result (IsMessage (ack_message side seq id.now date)) }
{
    let body = ack_body(alloc, side, seq, *id)?;
    let payload = body.write(alloc)?;
    let head = ack_head(id, date);
    encode_parts(alloc, &head, payload.as_slice())
}

fn ack_head(id: &[u8; 16], date: u64) -> Head
    ensures { result
        ≡ record {
          name = codes "acknowledge";
          schema = 1;
          date = date;
          seq = pos 0;
          flags = 3;
          id = id.now;
          ptype = 0;
        } }
{
    Head {
        name: Name::acknowledge(),
        schema: SCHEMA,
        date,
        seq: 0,
        flags: SYN + FIN,
        id: *id,
        ptype: 0,
    }
}

/// The body of an acknowledgement by this side, of a stream message of the other.
fn ack_body(alloc: Global, side: Side, seq: u64, id: [u8; 16]) -> Result<Ack, NoMemory>
    requires { seq < 2 ^ 63 }
    ensures { IfOk result (λ body. body ≡ ack_body side seq id) }
{
    Ok(Ack {
        id,
        seq: seq as i64,
        kind: Text::new(String::from_str(alloc, data_text(side.other()))?),
        sequential: true,
    })
}

/// MessageType of the stream messages that a side sends.
pub(crate) fn data_name(side: Side) -> Name
    ensures { result ≡ data_name side }
{
    match side {
        Side::Plugin => Name::input_stream_data(),
        Side::Agent => Name::output_stream_data(),
    }
}

/// The same as a text.
fn data_text(side: Side) -> &'static str
    ensures { result.now ≡ data_name side }
{
    match side {
        Side::Plugin => "input_stream_data",
        Side::Agent => "output_stream_data",
    }
}

fn stream_flags(seq: u64, last: bool) -> u64
    ensures { result ≡ stream_flags seq last }
{
    let syn = if seq == 0 { SYN } else { 0 };
    let fin = if last { FIN } else { 0 };
    syn + fin
}
