//! One example of each body, written and read.

use super::text;
use crate::{Ack, BodyFault, ChannelClosed, Opened, Opening, Size};
use std::test::Fail;

const ID: [u8; 16] = [0, 0, 0, 0, 0, 0, 0, 0, 0, 0, 0, 0, 0, 0, 0, 1];

#[test]
fn an_acknowledgement_is_written_and_read(rt: HostRuntime) -> Result<(), Fail> {
    let example =
        "{\"AcknowledgedMessageId\":\"00000000-0000-0000-0000-000000000001\",\"AcknowledgedMessageSequenceNumber\":0,\"AcknowledgedMessageType\":\"input_stream_data\",\"IsSequentialMessage\":true}";
    let ack = Ack {
        id: ID,
        seq: 0,
        kind: text(rt.alloc(), "input_stream_data")?,
        sequential: true,
    };
    let written = ack.write(rt.alloc())?;
    assert_eq!(rt; written.len(), 175);
    assert!(rt;
        written.as_slice() == example.as_bytes(),
        "the text is the example"
    );
    let read = Ack::read(rt.alloc(), example.as_bytes())?;
    assert!(rt; read.id == ID, "the id is read");
    assert_eq!(rt; read.seq, 0);
    assert!(rt;
        read.kind.as_str() == "input_stream_data",
        "the type is read"
    );
    assert!(rt; read.sequential, "it is sequential");
    Ok(())
}

#[test]
fn an_opening_is_written_and_read(rt: HostRuntime) -> Result<(), Fail> {
    let example =
        "{\"ClientId\":\"c\",\"MessageSchemaVersion\":\"1.0\",\"RequestId\":\"r\",\"TokenValue\":\"s-1.plugin.00000000000000010000000000000007\"}";
    let opening = Opening {
        client_id: text(rt.alloc(), "c")?,
        client_version: None,
        request_id: text(rt.alloc(), "r")?,
        token: text(rt.alloc(), "s-1.plugin.00000000000000010000000000000007")?,
    };
    let written = opening.write(rt.alloc())?;
    assert!(rt;
        written.as_slice() == example.as_bytes(),
        "the text is the example"
    );
    let read = Opening::read(rt.alloc(), example.as_bytes())?;
    assert!(rt; read.client_id.as_str() == "c", "the client is read");
    assert!(rt; read.client_version.is_none(), "there is no version");
    assert!(rt; read.request_id.as_str() == "r", "the request is read");
    assert!(rt;
        read.token.as_str() == "s-1.plugin.00000000000000010000000000000007",
        "the token is read"
    );
    Ok(())
}

#[test]
fn the_version_of_an_opening_stands_behind_its_client(rt: HostRuntime) -> Result<(), Fail> {
    let example =
        "{\"ClientId\":\"\",\"ClientVersion\":\"1.2.0.0\",\"MessageSchemaVersion\":\"1.0\",\"RequestId\":\"\",\"TokenValue\":\"\"}";
    let read = Opening::read(rt.alloc(), example.as_bytes())?;
    let version = read.client_version.as_ref();
    assert!(rt;
        version.is_some_and(|version| version.as_str() == "1.2.0.0"),
        "the version is read"
    );
    let written = read.write(rt.alloc())?;
    assert!(rt;
        written.as_slice() == example.as_bytes(),
        "the text is the example"
    );
    Ok(())
}

#[test]
fn a_reply_is_written_and_read(rt: HostRuntime) -> Result<(), Fail> {
    let example =
        "{\"Accepted\":true,\"Ended\":false,\"ResumeToken\":\"00000000000000020000000000000008\"}";
    let reply = Opened {
        accepted: true,
        ended: false,
        resume: text(rt.alloc(), "00000000000000020000000000000008")?,
    };
    let written = reply.write(rt.alloc())?;
    assert!(rt;
        written.as_slice() == example.as_bytes(),
        "the text is the example"
    );
    let read = Opened::read(rt.alloc(), example.as_bytes())?;
    assert!(rt; read.accepted, "it is accepted");
    assert!(rt; !read.ended, "the session goes on");
    assert!(rt;
        read.resume.as_str() == "00000000000000020000000000000008",
        "the token is read"
    );
    Ok(())
}

#[test]
fn a_size_is_written_and_read(rt: HostRuntime) -> Result<(), Fail> {
    let size = Size { cols: 80, rows: 24 };
    let written = size.write(rt.alloc())?;
    assert!(rt;
        written.as_slice() == b"{\"cols\":80,\"rows\":24}".as_slice(),
        "the text is the example"
    );
    assert_eq!(rt; Size::read(rt.alloc(), &written)?, size);
    let no_text = Size::read(rt.alloc(), b"{\"cols\":80,\"rows\":24,\"X\":\"\xff\"}");
    assert_eq!(rt; no_text, Err(BodyFault::NotJson), "it is not UTF-8");
    Ok(())
}

#[test]
fn a_closing_is_written_and_read(rt: HostRuntime) -> Result<(), Fail> {
    let example =
        "{\"CreatedDate\":\"1\",\"DestinationId\":\"\",\"MessageId\":\"00000000-0000-0000-0000-000000000009\",\"MessageType\":\"channel_closed\",\"Output\":\"\",\"SchemaVersion\":1,\"SessionId\":\"s-1\"}";
    let read = ChannelClosed::read(rt.alloc(), example.as_bytes())?;
    assert!(rt; read.created.as_str() == "1", "the date is read");
    assert!(rt;
        read.message_id.as_str() == "00000000-0000-0000-0000-000000000009",
        "the id is read"
    );
    assert!(rt; read.kind.as_str() == "channel_closed", "the type is read");
    assert_eq!(rt; read.schema, 1);
    assert!(rt; read.session.as_str() == "s-1", "the session is read");
    let written = read.write(rt.alloc())?;
    assert!(rt;
        written.as_slice() == example.as_bytes(),
        "the text is the example"
    );
    Ok(())
}
