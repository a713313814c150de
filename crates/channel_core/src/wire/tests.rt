ghost use Rattle.std.specs.Prelude.{◌≡◌, IfOk};

mod bodies;

use crate::wire::{InRefusal, incoming, outgoing};
use crate::{Incoming, Outgoing};
use agent_message::{Message, Name, encode};
use chan_values::{Bytes, Item, NoMemory, Side};
use resend_queue::Sent;
use std::alloc::Global;
use std::test::Fail;

/// The first message of a plugin: input_stream_data, number 0, id 1, "abc" as Output.
/// FIPS 180-4 has the SHA-256 of "abc".
const FIRST: [u8; 123] = *b"\x00\x00\x00\x74input_stream_data               \
    \x00\x00\x00\x01\x00\x00\x00\x00\x00\x00\x00\x01\x00\x00\x00\x00\x00\x00\x00\x00\
    \x00\x00\x00\x00\x00\x00\x00\x01\x00\x00\x00\x00\x00\x00\x00\x01\x00\x00\x00\x00\x00\x00\x00\x00\
    \xba\x78\x16\xbf\x8f\x01\xcf\xea\x41\x41\x40\xde\x5d\xae\x22\x23\
    \xb0\x03\x61\xa3\x96\x17\x7a\x9c\xb4\x10\xff\x61\xf2\x00\x15\xad\
    \x00\x00\x00\x01\x00\x00\x00\x03abc";

const ID: [u8; 16] = [0, 0, 0, 0, 0, 0, 0, 0, 0, 0, 0, 0, 0, 0, 0, 1];

/// A message of an agent: output_stream_data, number 1, the id below, "hi" as Output, date 7.
/// Its SHA-256 is that of Python's hashlib.
const SECOND: [u8; 122] = *b"\x00\x00\x00\x74output_stream_data              \
    \x00\x00\x00\x01\x00\x00\x00\x00\x00\x00\x00\x07\x00\x00\x00\x00\x00\x00\x00\x01\
    \x00\x00\x00\x00\x00\x00\x00\x00\xfe\xdc\xba\x98\x76\x54\x32\x10\xab\xcd\xef\x01\x23\x45\x67\x89\
    \x8f\x43\x43\x46\x64\x8f\x6b\x96\xdf\x89\xdd\xa9\x01\xc5\x17\x6b\
    \x10\xa6\xd8\x39\x61\xdd\x3c\x1a\xc8\x8b\x59\xb2\xdc\x32\x7a\xa4\
    \x00\x00\x00\x01\x00\x00\x00\x02hi";

const LETTERS: [u8; 16] = *b"\xab\xcd\xef\x01\x23\x45\x67\x89\xfe\xdc\xba\x98\x76\x54\x32\x10";

/// The acknowledgement of its like with the number 5, by a plugin at 9: what stands before the body,
/// whose SHA-256 is that of Python's hashlib, and the body.
const ACK_HEAD: [u8; 120] = *b"\x00\x00\x00\x74acknowledge                     \
    \x00\x00\x00\x01\x00\x00\x00\x00\x00\x00\x00\x09\x00\x00\x00\x00\x00\x00\x00\x00\
    \x00\x00\x00\x00\x00\x00\x00\x03\xfe\xdc\xba\x98\x76\x54\x32\x10\xab\xcd\xef\x01\x23\x45\x67\x89\
    \x0f\xb6\x33\x9c\xfd\x87\x7a\x94\x36\x6d\xd9\x05\x94\x66\x9e\x51\
    \x54\xd3\x4e\xd3\x00\xd5\x57\x35\x4e\xd4\x84\x6d\xc7\x24\x9a\x4e\
    \x00\x00\x00\x00\x00\x00\x00\xb0";

const ACK_BODY: &str = "{\"AcknowledgedMessageId\":\"abcdef01-2345-6789-fedc-ba9876543210\",\
    \"AcknowledgedMessageSequenceNumber\":5,\
    \"AcknowledgedMessageType\":\"output_stream_data\",\"IsSequentialMessage\":true}";

const CLOSED: &str = "{\"CreatedDate\":\"1\",\"DestinationId\":\"\",\
    \"MessageId\":\"00000000-0000-0000-0000-000000000009\",\"MessageType\":\"channel_closed\",\
    \"Output\":\"bye\",\"SchemaVersion\":1,\"SessionId\":\"s-1\"}";

/// A stream message of a side, and its bytes.
#[derive(Clone, Copy)]
struct Written<'a> {
    side: Side,
    seq: u32,
    id: [u8; 16],
    date: u32,
    payload: &'a [u8],
    last: bool,
    bytes: &'a [u8],
}

/// Four stream messages: of both sides, and each as the last of its direction, by its flags, 3 and 2.
fn four_messages<'a>(only: &'a [u8; 123], last: &'a [u8; 122]) -> [Written<'a>; 4] {
    let first = Written {
        side: Side::Plugin,
        seq: 0,
        id: ID,
        date: 1,
        payload: b"abc".as_slice(),
        last: false,
        bytes: FIRST.as_slice(),
    };
    let second = Written {
        side: Side::Agent,
        seq: 1,
        id: LETTERS,
        date: 7,
        payload: b"hi".as_slice(),
        last: false,
        bytes: SECOND.as_slice(),
    };
    let whole = Written {
        last: true,
        bytes: only.as_slice(),
        ..first
    };
    let end = Written {
        last: true,
        bytes: last.as_slice(),
        ..second
    };
    [first, second, whole, end]
}

/// Whether the message goes out as these bytes.
fn goes_out(alloc: Global, message: &Written) -> Result<bool, Fail> {
    let payload = message.payload;
    if payload.len() > 65_536 {
        return Err("too long")?;
    }
    let sent = Sent {
        seq: u64::from(message.seq),
        id: message.id,
        date: u64::from(message.date.max(1)),
        item: item(alloc, payload)?,
        last: message.last,
    };
    let bytes = outgoing(alloc, message.side, &Outgoing::Stream(sent))?;
    Ok(bytes.as_slice() == message.bytes)
}

/// Whether these bytes are heard as the message by the other side.
fn comes_in(alloc: Global, message: &Written, bytes: &[u8]) -> bool {
    match incoming(alloc, message.side.other(), bytes) {
        Ok(
            Incoming::Stream {
                seq,
                id,
                item,
                last,
            },
        ) => {
            let same = seq == u64::from(message.seq) && id == message.id && last == message.last;
            same && item.ptype == 1 && item.payload.as_slice() == message.payload
        }
        _ => false,
    }
}

/// The flags of a message, at 63 alone here.
const FLAGS: usize = 63;

#[test]
fn a_message_of_each_side_goes_out_and_comes_in(rt: HostRuntime) -> Result<(), Fail> {
    let mut only = FIRST;
    only[FLAGS] = 3;
    let mut last = SECOND;
    last[FLAGS] = 2;
    for message in &four_messages(&only, &last) {
        assert!(rt; goes_out(rt.alloc(), message)?);
        assert!(rt; comes_in(rt.alloc(), message, message.bytes));
    }
    Ok(())
}

#[test]
fn of_the_flags_one_bit_is_looked_at(rt: HostRuntime) {
    let mut bytes = FIRST;
    for (flags, last) in [(0, false), (5, false), (6, true), (255, true)] {
        bytes[FLAGS] = flags;
        let heard = incoming(rt.alloc(), Side::Agent, &bytes);
        let is_last = matches!(heard, Ok(Incoming::Stream { last: true, .. }));
        assert!(rt; is_last == last, "with the flags {flags}");
    }
}

#[test]
fn an_acknowledgement_has_its_id_in_lower_case(rt: HostRuntime) -> Result<(), Fail> {
    let out = Outgoing::Ack {
        seq: 5,
        id: LETTERS,
        date: 9,
    };
    let bytes = outgoing(rt.alloc(), Side::Plugin, &out)?;
    let head = bytes.as_slice().get(..120).ok_or("too short")?;
    assert_eq!(rt; head, ACK_HEAD.as_slice());
    let body = bytes.as_slice().get(120..).ok_or("too short")?;
    assert_eq!(rt; body, ACK_BODY.as_bytes());
    match incoming(rt.alloc(), Side::Agent, bytes.as_slice()) {
        Ok(Incoming::Ack { seq }) => assert_eq!(rt; seq, 5),
        _ => panic!(rt; "it is an acknowledgement"),
    }
    Ok(())
}

#[test]
fn a_message_goes_to_the_other_side_alone(rt: HostRuntime) {
    let refused = incoming(rt.alloc(), Side::Plugin, &FIRST);
    let refusal = InRefusal::Wrong(Name::input_stream_data());
    assert!(rt;
        refused.err() == Some(refusal),
        "it is a message of the plugin"
    );
    let refused = incoming(rt.alloc(), Side::Agent, &SECOND);
    let refusal = InRefusal::Wrong(Name::output_stream_data());
    assert!(rt;
        refused.err() == Some(refusal),
        "it is a message of the agent"
    );
}

#[test]
fn a_hurt_payload_is_refused(rt: HostRuntime) {
    let mut hurt = FIRST;
    hurt[122] = b'd';
    match incoming(rt.alloc(), Side::Agent, &hurt) {
        Err(InRefusal::Message(refusal)) => assert_eq!(rt; refusal.number(), 7),
        _ => panic!(rt; "its digest is that of abc"),
    }
}

#[test]
fn each_name_is_heard_in_its_way(rt: HostRuntime) -> Result<(), Fail> {
    let paused = heard(rt.alloc(), Name::pause_publication(), 0, "x")?;
    assert!(rt; matches!(paused, Ok(Incoming::Pause)));
    let started = heard(rt.alloc(), Name::start_publication(), 0, "x")?;
    assert!(rt; matches!(started, Ok(Incoming::Start)));
    match heard(rt.alloc(), Name::channel_closed(), 0, CLOSED)? {
        Ok(Incoming::Closing { output }) => assert_eq!(rt; output.as_str(), "bye"),
        _ => panic!(rt; "it is a closing"),
    }
    let refused = heard(rt.alloc(), Name::output_stream_data(), -2, "x")?;
    assert!(rt; refused.err() == Some(InRefusal::Negative(-2)));
    Ok(())
}

/// An item of type 1.
fn item(alloc: Global, payload: &[u8]) -> Result<Item, NoMemory>
    ensures { IfOk result (λ item. item.payload ≡ payload.now) }
{
    Ok(Item {
        ptype: 1,
        payload: Bytes::new(payload.to_vec(alloc)?),
    })
}

/// What a plugin hears of a message.
pub fn heard(
    alloc: Global,
    name: Name,
    seq: i64,
    payload: &str,
) -> Result<Result<Incoming, InRefusal>, Fail> {
    if payload.len() > 65_536 {
        return Err("too long")?;
    }
    let message = Message {
        name,
        schema: 1,
        date: 1,
        seq,
        flags: 0,
        id: ID,
        ptype: 0,
        payload: Bytes::new(payload.as_bytes().to_vec(alloc)?),
    };
    let bytes = encode(alloc, &message)?;
    Ok(incoming(alloc, Side::Plugin, bytes.as_slice()))
}
