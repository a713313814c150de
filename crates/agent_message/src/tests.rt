ghost use Rattle.std.specs.Prelude.{◌<◌};

use super::*;
use chan_values::Bytes;
use std::alloc::Global;
use std::test::Fail;

/// The first message of a plugin: input_stream_data, number 0, id 1, "abc" as Output.
/// FIPS 180-4 has the SHA-256 of "abc".
const MESSAGE: [u8; 123] = *b"\x00\x00\x00\x74input_stream_data               \
    \x00\x00\x00\x01\x00\x00\x00\x00\x00\x00\x00\x01\x00\x00\x00\x00\x00\x00\x00\x00\
    \x00\x00\x00\x00\x00\x00\x00\x01\
    \x00\x00\x00\x00\x00\x00\x00\x01\x00\x00\x00\x00\x00\x00\x00\x00\
    \xba\x78\x16\xbf\x8f\x01\xcf\xea\x41\x41\x40\xde\x5d\xae\x22\x23\
    \xb0\x03\x61\xa3\x96\x17\x7a\x9c\xb4\x10\xff\x61\xf2\x00\x15\xad\
    \x00\x00\x00\x01\x00\x00\x00\x03abc";

#[test]
fn the_first_message_is_written(rt: HostRuntime) -> Result<(), Fail> {
    let message = Message {
        name: Name::input_stream_data(),
        schema: 1,
        date: 1,
        seq: 0,
        flags: 1,
        id: [0, 0, 0, 0, 0, 0, 0, 0, 0, 0, 0, 0, 0, 0, 0, 1],
        ptype: 1,
        payload: Bytes::new(b"abc".to_vec(rt.alloc())?),
    };
    let bytes = encode(rt.alloc(), &message)?;
    assert_eq!(rt; bytes.as_slice(), MESSAGE.as_slice());
    Ok(())
}

#[test]
fn an_id_is_written_with_its_second_half_first(rt: HostRuntime) -> Result<(), Fail> {
    // 0a1b2c3d-4e5f-6071-8293-a4b5c6d7e8f9
    let head = Head {
        name: Name::input_stream_data(),
        schema: 1,
        date: 1,
        seq: 0,
        flags: 1,
        id: *b"\x0a\x1b\x2c\x3d\x4e\x5f\x60\x71\x82\x93\xa4\xb5\xc6\xd7\xe8\xf9",
        ptype: 1,
    };
    let bytes = encode_parts(rt.alloc(), &head, b"abc")?;
    assert_eq!(rt; bytes.len(), 123);
    let id = b"\x82\x93\xa4\xb5\xc6\xd7\xe8\xf9\x0a\x1b\x2c\x3d\x4e\x5f\x60\x71";
    assert_eq!(rt; &bytes[64..80], id.as_slice());
    assert_eq!(rt; &bytes[..64], &MESSAGE[..64]);
    assert_eq!(rt; &bytes[80..], &MESSAGE[80..]);
    assert_eq!(rt; decode(rt.alloc(), bytes.as_slice())?.id, head.id);
    Ok(())
}

#[test]
fn the_first_message_is_read(rt: HostRuntime) -> Result<(), Fail> {
    let message = decode(rt.alloc(), &MESSAGE)?;
    assert_eq!(rt; message.name, Name::input_stream_data());
    assert_eq!(rt; message.schema, 1);
    assert_eq!(rt; message.date, 1);
    assert_eq!(rt; message.seq, 0);
    assert_eq!(rt; message.flags, 1);
    assert_eq!(rt;
        message.id,
        [0, 0, 0, 0, 0, 0, 0, 0, 0, 0, 0, 0, 0, 0, 0, 1]
    );
    assert_eq!(rt; message.ptype, 1);
    assert_eq!(rt; message.payload.as_slice(), b"abc".as_slice());
    Ok(())
}

#[test]
fn short_and_wrong_headers_are_refused(rt: HostRuntime) -> Result<(), Fail> {
    let cases = [
        (changed(3, 0x75), Refusal::HeaderLength(117)),
        (changed(4, b' '), Refusal::Name(4)),
        (changed(21, b'-'), Refusal::Name(21)),
    ];
    for (bytes, refusal) in cases {
        assert!(rt; refuses(rt.alloc(), &bytes, refusal), "as {refusal:?}");
    }
    assert!(rt; refuses(rt.alloc(), &MESSAGE[..119], Refusal::Short(119)));
    let cut = Refusal::Length { said: 3, have: 2 };
    assert!(rt; refuses(rt.alloc(), &MESSAGE[..122], cut));
    let mut longer = MESSAGE.to_vec(rt.alloc())?;
    longer.push(b'd')?;
    let passed = Refusal::Length { said: 3, have: 4 };
    assert!(rt; refuses(rt.alloc(), longer.as_slice(), passed));
    Ok(())
}

#[test]
fn a_name_may_end_in_zeros(rt: HostRuntime) -> Result<(), Fail> {
    let message = decode(rt.alloc(), &changed(21, 0))?;
    assert_eq!(rt; message.name, Name::input_stream_data());
    Ok(())
}

/// A message with the payload "b" and the SHA-256 of "c".
const DAMAGED: [u8; 121] = *b"\x00\x00\x00\x74input_stream_data               \
    \x00\x00\x00\x01\x00\x00\x00\x00\x00\x00\x00\x01\x00\x00\x00\x00\x00\x00\x00\x00\
    \x00\x00\x00\x00\x00\x00\x00\x01\
    \x00\x00\x00\x00\x00\x00\x00\x01\x00\x00\x00\x00\x00\x00\x00\x00\
    \x2e\x7d\x2c\x03\xa9\x50\x7a\xe2\x65\xec\xf5\xb5\x35\x68\x85\xa5\
    \x33\x93\xa2\x02\x9d\x24\x13\x94\x99\x72\x65\xa1\xa2\x5a\xef\xc6\
    \x00\x00\x00\x01\x00\x00\x00\x01b";

#[test]
fn a_damaged_payload_is_told_with_both_digests(rt: HostRuntime) {
    let refusal = Refusal::Digest {
        // SHA-256 of "c".
        said: *b"\x2e\x7d\x2c\x03\xa9\x50\x7a\xe2\x65\xec\xf5\xb5\x35\x68\x85\xa5\
            \x33\x93\xa2\x02\x9d\x24\x13\x94\x99\x72\x65\xa1\xa2\x5a\xef\xc6",
        // SHA-256 of "b".
        computed: *b"\x3e\x23\xe8\x16\x00\x39\x59\x4a\x33\x89\x4f\x65\x64\xe1\xb1\x34\
            \x8b\xbd\x7a\x00\x88\xd4\x2c\x4a\xcb\x73\xee\xae\xd5\x9c\x00\x9d",
    };
    assert!(rt; refuses(rt.alloc(), &DAMAGED, refusal));
}

#[test]
fn a_pause_needs_no_date_and_no_digest(rt: HostRuntime) -> Result<(), Fail> {
    let mut bytes = [0; 121];
    bytes[..36].copy_from_slice(b"\x00\x00\x00\x74pause_publication               ");
    bytes[119] = 1;
    let pause = decode(rt.alloc(), &bytes)?;
    assert_eq!(rt; pause.name, Name::pause_publication());
    assert_eq!(rt; pause.date, 0);
    assert_eq!(rt; pause.payload.as_slice(), [0].as_slice());
    bytes[..36].copy_from_slice(b"\x00\x00\x00\x74input_stream_data               ");
    assert!(rt; refuses(rt.alloc(), &bytes, Refusal::Date));
    Ok(())
}

#[test]
fn a_payload_has_at_most_65_536_bytes(rt: HostRuntime) -> Result<(), Fail> {
    // PayloadLength is 65,537; nothing before it is wrong.
    let mut bytes = MESSAGE[..116].to_vec(rt.alloc())?;
    bytes.extend_from_slice(&[0, 1, 0, 1])?;
    bytes.extend_from_slice(&[0; 65_537])?;
    assert!(rt; refuses(rt.alloc(), bytes.as_slice(), Refusal::TooLong(65_537)));

    let message = Message {
        name: Name::output_stream_data(),
        schema: 1,
        date: 1,
        seq: -1,
        flags: 0,
        id: [7; 16],
        ptype: 1,
        payload: Bytes::new([5; 65_536].to_vec(rt.alloc())?),
    };
    let greatest = decode(rt.alloc(), encode(rt.alloc(), &message)?.as_slice())?;
    assert_eq!(rt; greatest.seq, -1);
    assert_eq!(rt; greatest.payload.len(), 65_536);
    Ok(())
}

#[test]
fn names_have_1_to_32_letters_digits_or_underscores(rt: HostRuntime) {
    let longest = b"abcdefghijklmnopqrstuvwxyzABC_09";
    assert!(rt; Name::new(longest).is_some());
    assert!(rt; Name::new(b"abcdefghijklmnopqrstuvwxyzABC_09_").is_none());
    assert!(rt; Name::new(b"").is_none());
    assert!(rt; Name::new(b"channel-closed").is_none());
    assert_eq!(rt; Name::new(b"channel_closed"), Some(Name::channel_closed()));
    assert_ne!(rt; Name::start_publication(), Name::pause_publication());
    assert_eq!(rt; Name::acknowledge().as_bytes(), b"acknowledge".as_slice());
}

#[test]
fn refusals_are_numbered_in_their_order(rt: HostRuntime) {
    let cases = [
        (Refusal::Short(0), 1),
        (Refusal::HeaderLength(0), 2),
        (Refusal::Name(4), 3),
        (Refusal::Length { said: 1, have: 0 }, 4),
        (Refusal::TooLong(65_537), 5),
        (Refusal::Date, 6),
    ];
    for (refusal, number) in cases {
        assert_eq!(rt; refusal.number(), number, "{refusal:?}");
    }
}

#[test]
fn an_item_is_copied(rt: HostRuntime) -> Result<(), Fail> {
    let item = Item {
        ptype: 12,
        payload: Bytes::new(b"0".to_vec(rt.alloc())?),
    };
    let copied = item.copy(rt.alloc())?;
    assert_eq!(rt; copied.ptype, 12);
    assert_eq!(rt; copied.payload.as_slice(), b"0".as_slice());
    Ok(())
}

fn changed(at: usize, byte: u8) -> [u8; 123]
    requires { at < 123 }
{
    let mut bytes = MESSAGE;
    bytes[at] = byte;
    bytes
}

fn refuses(alloc: Global, bytes: &[u8], refusal: Refusal) -> bool {
    match decode(alloc, bytes) {
        Ok(_) => false,
        Err(found) => found == refusal,
    }
}
