//! The order of the table, whole numbers, and how deep a body may nest.

use crate::{Ack, BodyFault, Member, Size};
use std::test::Fail;

#[test]
fn the_first_fault_in_the_order_of_the_table_is_told(rt: HostRuntime) {
    let cases = [
        (
            "{\"IsSequentialMessage\":true,\"X\":0,\"AcknowledgedMessageType\":\"input_stream_data\",\"AcknowledgedMessageSequenceNumber\":7,\"AcknowledgedMessageId\":\"00000000-0000-0000-0000-000000000001\"}",
            Ok(7),
        ),
        (
            "{\"IsSequentialMessage\":true,\"AcknowledgedMessageType\":\"\",\"AcknowledgedMessageSequenceNumber\":\"7\",\"AcknowledgedMessageId\":\"00000000-0000-0000-0000-000000000001\"}",
            Err(BodyFault::Kind(Member::AcknowledgedMessageSequenceNumber)),
        ),
        (
            "{\"IsSequentialMessage\":true,\"AcknowledgedMessageType\":\"\",\"AcknowledgedMessageSequenceNumber\":-1,\"AcknowledgedMessageId\":\"00000000000000000000000000000001\"}",
            Ok(-1),
        ),
        (
            "{\"IsSequentialMessage\":1,\"AcknowledgedMessageType\":\"\",\"AcknowledgedMessageSequenceNumber\":-9223372036854775808,\"AcknowledgedMessageId\":\"urn:uuid:00000000-0000-0000-0000-00000000000A\"}",
            Err(BodyFault::Kind(Member::IsSequentialMessage)),
        ),
        (
            "{\"IsSequentialMessage\":1,\"AcknowledgedMessageSequenceNumber\":9223372036854775808,\"AcknowledgedMessageId\":\"{00000000-0000-0000-0000-000000000001}\"}",
            Err(BodyFault::Range(Member::AcknowledgedMessageSequenceNumber)),
        ),
        (
            "{\"AcknowledgedMessageSequenceNumber\":0,\"AcknowledgedMessageId\":\"00000000-0000-0000-0000-00000000000\"}",
            Err(BodyFault::Range(Member::AcknowledgedMessageId)),
        ),
        (
            "{\"AcknowledgedMessageSequenceNumber\":0,\"AcknowledgedMessageId\":\"00000000-0000-0000-0000-000000000001\"}",
            Err(BodyFault::Missing(Member::AcknowledgedMessageType)),
        ),
        ("{}", Err(BodyFault::Missing(Member::AcknowledgedMessageId))),
        ("[]", Err(BodyFault::NotObject)),
        ("{", Err(BodyFault::NotJson)),
        ("", Err(BodyFault::NotJson)),
    ];
    for (body, answer) in cases {
        let read = Ack::read(rt.alloc(), body.as_bytes()).map(|ack| ack.seq);
        assert_eq!(rt; read, answer, "of {body}");
    }
}

#[test]
fn a_whole_number_is_an_integer_of_64_bits(rt: HostRuntime) {
    let cases = [
        ("{\"cols\":4294967295,\"rows\":0}", Ok(4_294_967_295)),
        (
            "{\"cols\":4294967296,\"rows\":0}",
            Err(BodyFault::Range(Member::Cols)),
        ),
        (
            "{\"cols\":-1,\"rows\":0}",
            Err(BodyFault::Range(Member::Cols)),
        ),
        (
            "{\"cols\":18446744073709551615,\"rows\":0}",
            Err(BodyFault::Range(Member::Cols)),
        ),
        (
            "{\"cols\":18446744073709551616,\"rows\":0}",
            Err(BodyFault::Kind(Member::Cols)),
        ),
        (
            "{\"cols\":-0,\"rows\":0}",
            Err(BodyFault::Kind(Member::Cols)),
        ),
        (
            "{\"cols\":1.0,\"rows\":0}",
            Err(BodyFault::Kind(Member::Cols)),
        ),
        (
            "{\"cols\":1e0,\"rows\":0}",
            Err(BodyFault::Kind(Member::Cols)),
        ),
        (
            "{\"cols\":null,\"rows\":0}",
            Err(BodyFault::Kind(Member::Cols)),
        ),
        ("{\"cols\":\"x\",\"cols\":2,\"rows\":0}", Ok(2)),
        (
            "{\"cols\":1,\"rows\":0,\"X\":1e400}",
            Err(BodyFault::NotJson),
        ),
    ];
    for (body, answer) in cases {
        let read = Size::read(rt.alloc(), body.as_bytes()).map(|size| size.cols);
        assert_eq!(rt; read, answer, "of {body}");
    }
}

#[test]
fn a_body_nests_at_most_127_deep(rt: HostRuntime) -> Result<(), Fail> {
    for (lists, answer) in [(126, Ok(1)), (127, Err(BodyFault::NotJson))] {
        let mut body = String::from_str(rt.alloc(), "{\"cols\":1,\"rows\":2,\"X\":")?;
        for _ in 0..lists {
            body.push('[')?;
        }
        for _ in 0..lists {
            body.push(']')?;
        }
        body.push('}')?;
        let read = Size::read(rt.alloc(), body.as_bytes()).map(|size| size.cols);
        assert_eq!(rt; read, answer, "with {lists} lists in the object");
    }
    Ok(())
}
