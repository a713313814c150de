use crate::{Audit, Totals, Why, audit};
use agent_message::Refusal;
use channel_core::wire::InRefusal;
use std::alloc::{AllocError, Global};
use std::test::Fail;

/// The first message of a plugin: input_stream_data, number 0, id 1, "abc" as Output, date 1.
/// FIPS 180-4 has the SHA-256 of "abc".
const FIRST: [u8; 123] = *b"\x00\x00\x00\x74input_stream_data               \
    \x00\x00\x00\x01\x00\x00\x00\x00\x00\x00\x00\x01\x00\x00\x00\x00\x00\x00\x00\x00\
    \x00\x00\x00\x00\x00\x00\x00\x01\x00\x00\x00\x00\x00\x00\x00\x01\x00\x00\x00\x00\x00\x00\x00\x00\
    \xba\x78\x16\xbf\x8f\x01\xcf\xea\x41\x41\x40\xde\x5d\xae\x22\x23\
    \xb0\x03\x61\xa3\x96\x17\x7a\x9c\xb4\x10\xff\x61\xf2\x00\x15\xad\
    \x00\x00\x00\x01\x00\x00\x00\x03abc";

/// The same with number 1, and so without SYN.
const SECOND: [u8; 123] = *b"\x00\x00\x00\x74input_stream_data               \
    \x00\x00\x00\x01\x00\x00\x00\x00\x00\x00\x00\x01\x00\x00\x00\x00\x00\x00\x00\x01\
    \x00\x00\x00\x00\x00\x00\x00\x00\x00\x00\x00\x00\x00\x00\x00\x01\x00\x00\x00\x00\x00\x00\x00\x00\
    \xba\x78\x16\xbf\x8f\x01\xcf\xea\x41\x41\x40\xde\x5d\xae\x22\x23\
    \xb0\x03\x61\xa3\x96\x17\x7a\x9c\xb4\x10\xff\x61\xf2\x00\x15\xad\
    \x00\x00\x00\x01\x00\x00\x00\x03abc";

/// Both ends are connected.
const OPENED: [u8; 12] = *b"\x00\x00\x00\x02P\x02\x00\x00\x00\x02A\x02";

/// The plugin gives out a message of 123 bytes, and the agent hears one.
const EMITTED: [u8; 6] = *b"\x00\x00\x00\x7dP\x00";

const HEARD: [u8; 6] = *b"\x00\x00\x00\x7dA\x01";

/// Both ends are connected, and then these pieces.
fn journal(alloc: Global, pieces: &[&[u8]]) -> Result<Vec<u8>, AllocError> {
    let mut bytes = Vec::new(alloc);
    bytes.extend_from_slice(&OPENED)?;
    for piece in pieces {
        bytes.extend_from_slice(piece)?;
    }
    Ok(bytes)
}

/// One message went from the plugin to the agent.
const ONE_MESSAGE: Audit = Audit::Yes(Totals {
    sent_p: 1,
    sent_a: 0,
    released_a: 1,
    released_p: 0,
});

#[test]
fn the_order_between_the_ends_makes_no_difference(rt: HostRuntime) -> Result<(), Fail> {
    let there = journal(rt.alloc(), &[&EMITTED, &FIRST, &HEARD, &FIRST])?;
    assert_eq!(rt; audit(rt.alloc(), &there, 10), ONE_MESSAGE);
    let back = journal(rt.alloc(), &[&HEARD, &FIRST, &EMITTED, &FIRST])?;
    assert_eq!(rt; audit(rt.alloc(), &back, 10), ONE_MESSAGE);
    Ok(())
}

#[test]
fn a_message_may_go_out_again(rt: HostRuntime) -> Result<(), Fail> {
    let twice = journal(
        rt.alloc(),
        &[&EMITTED, &FIRST, &EMITTED, &FIRST, &HEARD, &FIRST],
    )?;
    assert_eq!(rt; audit(rt.alloc(), &twice, 10), ONE_MESSAGE);
    Ok(())
}

#[test]
fn what_was_not_given_out_is_not_heard(rt: HostRuntime) -> Result<(), Fail> {
    let heard = journal(rt.alloc(), &[&HEARD, &FIRST])?;
    assert_eq!(rt; audit(rt.alloc(), &heard, 10), Audit::Bad(12, Why::Unheard));
    Ok(())
}

#[test]
fn number_1_does_not_go_out_first(rt: HostRuntime) -> Result<(), Fail> {
    let out = journal(rt.alloc(), &[&EMITTED, &SECOND])?;
    assert_eq!(rt;
        audit(rt.alloc(), &out, 10),
        Audit::Bad(12, Why::NotEmitted)
    );
    Ok(())
}

#[test]
fn nothing_happened_in_an_empty_journal(rt: HostRuntime) {
    let totals = Totals {
        sent_p: 0,
        sent_a: 0,
        released_a: 0,
        released_p: 0,
    };
    assert_eq!(rt; audit(rt.alloc(), b"", 10), Audit::Yes(totals));
}

#[test]
fn a_fault_of_form_is_told_by_its_place(rt: HostRuntime) {
    let refusal = InRefusal::Message(Refusal::Short(1));
    let cases = [
        (b"\x00\x00\x00\x01".as_slice(), 0, Why::Size(1)),
        (b"\x00\x01\x00\x7b".as_slice(), 0, Why::Size(65_659)),
        (b"\x00\x00\x00\x02X\x02".as_slice(), 0, Why::WrongEnd(b'X')),
        (b"\x00\x00\x00\x02P\x05".as_slice(), 0, Why::Kind(5)),
        (b"\x00\x00\x00\x03P\x02z".as_slice(), 0, Why::Extra(1)),
        (
            b"\x00\x00\x00\x03P\x00z".as_slice(),
            0,
            Why::Message(refusal),
        ),
        (b"\x00\x00\x00\x02P\x02\x00\x00".as_slice(), 6, Why::Cut(2)),
    ];
    for (bytes, at, why) in cases {
        assert_eq!(rt; audit(rt.alloc(), bytes, 10), Audit::Bad(at, why));
    }
}
