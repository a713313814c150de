//! Bodies that are refused, and the number of an acknowledgement.

use super::heard;
use crate::Incoming;
use crate::wire::InRefusal;
use agent_message::Name;
use json_bodies::{BodyFault, Member};
use std::alloc::Global;
use std::test::Fail;

/// What a body of an acknowledgement has before the number, and behind it.
const ACK_FRONT: &str = "{\"AcknowledgedMessageId\":\"00000000-0000-0000-0000-000000000001\",\
    \"AcknowledgedMessageSequenceNumber\":";

const ACK_BACK: &str = ",\"AcknowledgedMessageType\":\"\",\"IsSequentialMessage\":true}";

/// Closings with a second version, which counts and is out of its range.
const NEGATIVE_VERSION: &str = "{\"CreatedDate\":\"1\",\"DestinationId\":\"\",\"MessageId\":\"\",\
    \"MessageType\":\"\",\"Output\":\"\",\"SchemaVersion\":1,\"SessionId\":\"\",\"SchemaVersion\":-1}";

const LONG_VERSION: &str = "{\"CreatedDate\":\"1\",\"DestinationId\":\"\",\"MessageId\":\"\",\
    \"MessageType\":\"\",\"Output\":\"\",\"SchemaVersion\":1,\"SessionId\":\"\",\
    \"SchemaVersion\":4294967296}";

/// Whether a body is refused for this fault, behind this name and this number.
fn refuses(
    alloc: Global,
    name: Name,
    seq: i64,
    body: &str,
    refusal: InRefusal,
) -> Result<bool, Fail> {
    let refused = heard(alloc, name, seq, body)?;
    Ok(refused.err() == Some(refusal))
}

#[test]
fn a_closing_is_an_object_with_a_version(rt: HostRuntime) -> Result<(), Fail> {
    let version = BodyFault::Range(Member::SchemaVersion);
    let cases = [
        ("{", BodyFault::NotJson),
        ("[]", BodyFault::NotObject),
        (NEGATIVE_VERSION, version),
        (LONG_VERSION, version),
    ];
    for (body, fault) in cases {
        let refusal = InRefusal::Body(fault);
        assert!(rt;
            refuses(rt.alloc(), Name::channel_closed(), 0, body, refusal)?,
            "of {body}"
        );
    }
    Ok(())
}

/// Whether a closing whose members end with this front lacks this member, and may not have this
/// value of it.
fn lacks(alloc: Global, front: &str, member: Member, key: &str, wrong: &str) -> Result<bool, Fail> {
    let name = Name::channel_closed();
    let short = format!(in alloc; "{front}}}")?;
    let missing = InRefusal::Body(BodyFault::Missing(member));
    let other = format!(in alloc; "{front}{key}{wrong}}}")?;
    let kind = InRefusal::Body(BodyFault::Kind(member));
    let is_missing = refuses(alloc, name, 0, short.as_str(), missing)?;
    Ok(is_missing && refuses(alloc, name, 0, other.as_str(), kind)?)
}

#[test]
fn each_fault_of_a_closing_is_told(rt: HostRuntime) -> Result<(), Fail> {
    // Each member behind those before it in the table: not there, of another kind, and right.
    let members = [
        (Member::CreatedDate, "\"CreatedDate\":", "1", "\"1\""),
        (Member::DestinationId, ",\"DestinationId\":", "null", "\"\""),
        (Member::MessageId, ",\"MessageId\":", "[]", "\"\""),
        (Member::MessageType, ",\"MessageType\":", "{}", "\"\""),
        (Member::Output, ",\"Output\":", "true", "\"\""),
        (Member::SchemaVersion, ",\"SchemaVersion\":", "\"1\"", "1"),
        (Member::SessionId, ",\"SessionId\":", "1.5", "\"\""),
    ];
    let mut front = String::from_str(rt.alloc(), "{")?;
    for (member, key, wrong, right) in members {
        assert!(rt;
            lacks(rt.alloc(), front.as_str(), member, key, wrong)?,
            "{wrong} for {key}"
        );
        front.push_str(key)?;
        front.push_str(right)?;
    }
    Ok(())
}

#[test]
fn the_number_of_an_acknowledgement_has_63_bits(rt: HostRuntime) -> Result<(), Fail> {
    let range = InRefusal::Body(BodyFault::Range(Member::AcknowledgedMessageSequenceNumber));
    let kind = InRefusal::Body(BodyFault::Kind(Member::AcknowledgedMessageSequenceNumber));
    let cases = [
        ("9223372036854775808", range),
        ("-1", InRefusal::Negative(-1)),
        ("-9223372036854775808", InRefusal::Negative(i64::MIN)),
        ("1.0", kind),
    ];
    for (number, refusal) in cases {
        let body = format!(in rt.alloc(); "{ACK_FRONT}{number}{ACK_BACK}")?;
        assert!(rt;
            refuses(rt.alloc(), Name::acknowledge(), 0, body.as_str(), refusal)?,
            "at {number}"
        );
    }
    Ok(())
}

#[test]
fn an_acknowledgement_is_read_by_its_body(rt: HostRuntime) -> Result<(), Fail> {
    let name = Name::acknowledge();
    let body = format!(in rt.alloc(); "{ACK_FRONT}9223372036854775807{ACK_BACK}")?;
    match heard(rt.alloc(), name, -5, body.as_str())? {
        Ok(Incoming::Ack { seq }) => assert_eq!(rt; seq, 9_223_372_036_854_775_807),
        _ => panic!(rt; "its own number is not looked at"),
    }
    let missing = InRefusal::Body(BodyFault::Missing(Member::AcknowledgedMessageId));
    assert!(rt;
        refuses(rt.alloc(), name, 0, "{}", missing)?,
        "the id is not there"
    );
    Ok(())
}
