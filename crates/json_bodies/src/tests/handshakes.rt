//! The bodies of a handshake, written and read.

use super::text;
use crate::{
    Action, HandshakeComplete, HandshakeRequest, HandshakeResponse, Processed, Properties, Sequence,
};
use std::alloc::Global;
use std::test::Fail;

const PORT_REQUEST: &str =
    "{\"AgentVersion\":\"3.3.0.0\",\"RequestedClientActions\":[{\"ActionParameters\":{\"Properties\":{\"portNumber\":\"80\",\"type\":\"LocalPortForwarding\"},\"SessionType\":\"Port\"},\"ActionType\":\"SessionType\"}]}";

const REQUEST: &str =
    "{\"AgentVersion\":\"3.3.0.0\",\"RequestedClientActions\":[{\"ActionParameters\":{\"Properties\":{},\"SessionType\":\"Standard_Stream\"},\"ActionType\":\"SessionType\"},{\"ActionParameters\":{\"KMSKeyId\":\"k\"},\"ActionType\":\"KMSEncryption\"}]}";

const RESPONSE: &str =
    "{\"ClientVersion\":\"1.2.0.0\",\"Errors\":[],\"ProcessedClientActions\":[{\"ActionResult\":null,\"ActionStatus\":1,\"ActionType\":\"SessionType\",\"Error\":\"\"},{\"ActionResult\":null,\"ActionStatus\":3,\"ActionType\":\"KMSEncryption\",\"Error\":\"Unsupported\"}]}";

#[test]
fn a_request_for_a_port_is_written_and_read(rt: HostRuntime) -> Result<(), Fail> {
    let mut actions = Vec::new(rt.alloc());
    actions.push(Action::Session {
        name: text(rt.alloc(), "Port")?,
        properties: Properties {
            local_port: None,
            port: Some(text(rt.alloc(), "80")?),
            kind: Some(text(rt.alloc(), "LocalPortForwarding")?),
        },
    })?;
    let request = HandshakeRequest {
        agent_version: text(rt.alloc(), "3.3.0.0")?,
        actions: Sequence::new(actions),
    };
    let written = request.write(rt.alloc())?;
    assert!(rt;
        written.as_slice() == PORT_REQUEST.as_bytes(),
        "the text is the example"
    );
    let read = HandshakeRequest::read(rt.alloc(), PORT_REQUEST.as_bytes())?;
    assert!(rt;
        read.agent_version.as_str() == "3.3.0.0",
        "the version is read"
    );
    let again = read.write(rt.alloc())?;
    assert!(rt;
        again.as_slice() == PORT_REQUEST.as_bytes(),
        "the actions are read"
    );
    Ok(())
}

#[test]
fn another_action_is_read_without_its_parameters(rt: HostRuntime) -> Result<(), Fail> {
    let read = HandshakeRequest::read(rt.alloc(), REQUEST.as_bytes())?;
    match read.actions.as_slice() {
        [
            Action::Session { name, properties },
            Action::Other { name: other },
        ] => {
            assert!(rt; name.as_str() == "Standard_Stream", "the type is read");
            assert!(rt; properties.port.is_none(), "there are no properties");
            assert!(rt;
                other.as_str() == "KMSEncryption",
                "the other action is read"
            );
        }
        _ => assert!(rt; false, "there are two actions"),
    }
    Ok(())
}

fn processed(alloc: Global, status: u8, name: &str, error: &str) -> Result<Processed, Fail> {
    Ok(Processed {
        status,
        name: text(alloc, name)?,
        error: text(alloc, error)?,
    })
}

#[test]
fn a_response_is_written_and_read(rt: HostRuntime) -> Result<(), Fail> {
    let mut actions = Vec::new(rt.alloc());
    actions.push(processed(rt.alloc(), 1, "SessionType", "")?)?;
    actions.push(processed(rt.alloc(), 3, "KMSEncryption", "Unsupported")?)?;
    let response = HandshakeResponse {
        client_version: text(rt.alloc(), "1.2.0.0")?,
        errors: Sequence::none(rt.alloc()),
        actions: Sequence::new(actions),
    };
    let written = response.write(rt.alloc())?;
    assert!(rt;
        written.as_slice() == RESPONSE.as_bytes(),
        "the text is the example"
    );
    let read = HandshakeResponse::read(rt.alloc(), RESPONSE.as_bytes())?;
    assert!(rt;
        read.client_version.as_str() == "1.2.0.0",
        "the version is read"
    );
    match read.actions.as_slice() {
        [first, second] => {
            assert_eq!(rt; first.status, 1);
            assert_eq!(rt; second.status, 3);
            assert!(rt; second.error.as_str() == "Unsupported", "the error is read");
        }
        _ => assert!(rt; false, "there are two actions"),
    }
    Ok(())
}

#[test]
fn the_errors_of_a_response_are_written_and_read(rt: HostRuntime) -> Result<(), Fail> {
    let body = "{\"ClientVersion\":\"\",\"Errors\":[\"a\",\"b\"],\"ProcessedClientActions\":[]}";
    let read = HandshakeResponse::read(rt.alloc(), body.as_bytes())?;
    assert_eq!(rt; read.errors.as_slice().len(), 2);
    let written = read.write(rt.alloc())?;
    assert!(rt;
        written.as_slice() == body.as_bytes(),
        "the errors are written"
    );
    Ok(())
}

#[test]
fn the_end_of_a_handshake_is_written_and_read(rt: HostRuntime) -> Result<(), Fail> {
    let example = "{\"CustomerMessage\":\"\",\"HandshakeTimeToComplete\":4000000}";
    let complete = HandshakeComplete {
        message: text(rt.alloc(), "")?,
        nanos: 4_000_000,
    };
    let written = complete.write(rt.alloc())?;
    assert!(rt;
        written.as_slice() == example.as_bytes(),
        "the text is the example"
    );
    let read = HandshakeComplete::read(rt.alloc(), example.as_bytes())?;
    assert!(rt; read.message.as_str() == "", "the message is read");
    assert_eq!(rt; read.nanos, 4_000_000);
    Ok(())
}
