//! Each fault of each member, once.

use crate::BodyFault::{Kind, Missing, Range};
use crate::{HandshakeComplete, HandshakeRequest, HandshakeResponse, Member, Opened, Opening};

#[test]
fn each_fault_of_an_opening_is_told(rt: HostRuntime) {
    let cases = [
        ("{}", Missing(Member::ClientId)),
        ("{\"ClientId\":1}", Kind(Member::ClientId)),
        (
            "{\"ClientId\":\"\",\"ClientVersion\":null}",
            Kind(Member::ClientVersion),
        ),
        (
            "{\"ClientId\":\"\",\"ClientVersion\":\"\"}",
            Missing(Member::MessageSchemaVersion),
        ),
        (
            "{\"ClientId\":\"\",\"MessageSchemaVersion\":1.0}",
            Kind(Member::MessageSchemaVersion),
        ),
        (
            "{\"ClientId\":\"\",\"MessageSchemaVersion\":\"1\"}",
            Range(Member::MessageSchemaVersion),
        ),
        (
            "{\"ClientId\":\"\",\"MessageSchemaVersion\":\"1.0\"}",
            Missing(Member::RequestId),
        ),
        (
            "{\"ClientId\":\"\",\"MessageSchemaVersion\":\"1.0\",\"RequestId\":[]}",
            Kind(Member::RequestId),
        ),
        (
            "{\"ClientId\":\"\",\"MessageSchemaVersion\":\"1.0\",\"RequestId\":\"\"}",
            Missing(Member::TokenValue),
        ),
        (
            "{\"ClientId\":\"\",\"MessageSchemaVersion\":\"1.0\",\"RequestId\":\"\",\"TokenValue\":true}",
            Kind(Member::TokenValue),
        ),
    ];
    for (body, fault) in cases {
        let read = Opening::read(rt.alloc(), body.as_bytes()).map(|_| ());
        assert_eq!(rt; read, Err(fault), "of {body}");
    }
}

#[test]
fn each_fault_of_a_reply_is_told(rt: HostRuntime) {
    let cases = [
        ("{}", Err(Missing(Member::Accepted))),
        ("{\"Accepted\":1}", Err(Kind(Member::Accepted))),
        ("{\"Accepted\":true}", Err(Missing(Member::Ended))),
        (
            "{\"Accepted\":true,\"Ended\":null,\"ResumeToken\":\"\"}",
            Err(Kind(Member::Ended)),
        ),
        (
            "{\"Accepted\":true,\"Ended\":false}",
            Err(Missing(Member::ResumeToken)),
        ),
        (
            "{\"Accepted\":false,\"Ended\":false,\"ResumeToken\":null}",
            Err(Kind(Member::ResumeToken)),
        ),
        (
            "{\"Accepted\":false,\"Ended\":true,\"ResumeToken\":\"\"}",
            Ok(()),
        ),
        (
            "{\"Accepted\":true,\"Ended\":false,\"ResumeToken\":\"\"}",
            Err(Range(Member::ResumeToken)),
        ),
        (
            "{\"Accepted\":true,\"Ended\":false,\"ResumeToken\":\"0000000000000002000000000000000A\"}",
            Err(Range(Member::ResumeToken)),
        ),
        (
            "{\"Accepted\":false,\"Ended\":false,\"ResumeToken\":\"0000000000000002000000000000000\"}",
            Err(Range(Member::ResumeToken)),
        ),
    ];
    for (body, answer) in cases {
        let read = Opened::read(rt.alloc(), body.as_bytes()).map(|_| ());
        assert_eq!(rt; read, answer, "of {body}");
    }
}

#[test]
fn each_fault_of_a_request_is_told(rt: HostRuntime) {
    let cases = [
        ("{}", Err(Missing(Member::AgentVersion))),
        ("{\"AgentVersion\":3}", Err(Kind(Member::AgentVersion))),
        ("{\"AgentVersion\":\"\"}", Ok(())),
        (
            "{\"AgentVersion\":\"\",\"RequestedClientActions\":null}",
            Ok(()),
        ),
        (
            "{\"AgentVersion\":\"\",\"RequestedClientActions\":{}}",
            Err(Kind(Member::RequestedClientActions)),
        ),
        (
            "{\"AgentVersion\":\"\",\"RequestedClientActions\":[{},5]}",
            Err(Kind(Member::RequestedClientActions)),
        ),
        (
            "{\"AgentVersion\":\"\",\"RequestedClientActions\":[{}]}",
            Err(Missing(Member::ActionType)),
        ),
        (
            "{\"AgentVersion\":\"\",\"RequestedClientActions\":[{\"ActionType\":null}]}",
            Err(Kind(Member::ActionType)),
        ),
    ];
    for (body, answer) in cases {
        let read = HandshakeRequest::read(rt.alloc(), body.as_bytes()).map(|_| ());
        assert_eq!(rt; read, answer, "of {body}");
    }
}

#[test]
fn each_fault_of_what_a_request_asks_is_told(rt: HostRuntime) {
    let cases = [
        (
            "{\"AgentVersion\":\"\",\"RequestedClientActions\":[{\"ActionType\":\"X\",\"ActionParameters\":1}]}",
            Ok(()),
        ),
        (
            "{\"AgentVersion\":\"\",\"RequestedClientActions\":[{\"ActionType\":\"SessionType\"}]}",
            Err(Missing(Member::ActionParameters)),
        ),
        (
            "{\"AgentVersion\":\"\",\"RequestedClientActions\":[{\"ActionType\":\"SessionType\",\"ActionParameters\":[]}]}",
            Err(Kind(Member::ActionParameters)),
        ),
        (
            "{\"AgentVersion\":\"\",\"RequestedClientActions\":[{\"ActionType\":\"SessionType\",\"ActionParameters\":{}}]}",
            Err(Missing(Member::SessionType)),
        ),
        (
            "{\"AgentVersion\":\"\",\"RequestedClientActions\":[{\"ActionType\":\"SessionType\",\"ActionParameters\":{\"SessionType\":1}}]}",
            Err(Kind(Member::SessionType)),
        ),
        (
            "{\"AgentVersion\":\"\",\"RequestedClientActions\":[{\"ActionType\":\"SessionType\",\"ActionParameters\":{\"SessionType\":\"Port\",\"Properties\":[]}}]}",
            Err(Kind(Member::Properties)),
        ),
        (
            "{\"AgentVersion\":\"\",\"RequestedClientActions\":[{\"ActionType\":\"SessionType\",\"ActionParameters\":{\"SessionType\":\"Port\",\"Properties\":null}}]}",
            Ok(()),
        ),
        (
            "{\"AgentVersion\":\"\",\"RequestedClientActions\":[{\"ActionType\":\"SessionType\",\"ActionParameters\":{\"SessionType\":\"Port\",\"Properties\":{\"localPortNumber\":80}}}]}",
            Err(Kind(Member::LocalPortNumber)),
        ),
        (
            "{\"AgentVersion\":\"\",\"RequestedClientActions\":[{\"ActionType\":\"SessionType\",\"ActionParameters\":{\"SessionType\":\"Port\",\"Properties\":{\"portNumber\":null}}}]}",
            Err(Kind(Member::PortNumber)),
        ),
        (
            "{\"AgentVersion\":\"\",\"RequestedClientActions\":[{\"ActionType\":\"SessionType\",\"ActionParameters\":{\"SessionType\":\"Port\",\"Properties\":{\"type\":false}}}]}",
            Err(Kind(Member::Type_)),
        ),
        (
            "{\"AgentVersion\":\"\",\"RequestedClientActions\":[{\"ActionType\":\"X\"},{\"ActionType\":\"SessionType\"}]}",
            Err(Missing(Member::ActionParameters)),
        ),
    ];
    for (body, answer) in cases {
        let read = HandshakeRequest::read(rt.alloc(), body.as_bytes()).map(|_| ());
        assert_eq!(rt; read, answer, "of {body}");
    }
}

#[test]
fn each_fault_of_a_response_is_told(rt: HostRuntime) {
    let cases = [
        ("{}", Err(Missing(Member::ClientVersion))),
        ("{\"ClientVersion\":[]}", Err(Kind(Member::ClientVersion))),
        ("{\"ClientVersion\":\"\",\"Errors\":null}", Ok(())),
        (
            "{\"ClientVersion\":\"\",\"Errors\":{}}",
            Err(Kind(Member::Errors)),
        ),
        (
            "{\"ClientVersion\":\"\",\"Errors\":[\"\",1]}",
            Err(Kind(Member::Errors)),
        ),
        (
            "{\"ClientVersion\":\"\",\"ProcessedClientActions\":null}",
            Ok(()),
        ),
        (
            "{\"ClientVersion\":\"\",\"ProcessedClientActions\":0}",
            Err(Kind(Member::ProcessedClientActions)),
        ),
        (
            "{\"ClientVersion\":\"\",\"ProcessedClientActions\":[{},[]]}",
            Err(Kind(Member::ProcessedClientActions)),
        ),
    ];
    for (body, answer) in cases {
        let read = HandshakeResponse::read(rt.alloc(), body.as_bytes()).map(|_| ());
        assert_eq!(rt; read, answer, "of {body}");
    }
}

#[test]
fn each_fault_of_a_processed_action_is_told(rt: HostRuntime) {
    let cases = [
        (
            "{\"ClientVersion\":\"\",\"ProcessedClientActions\":[{}]}",
            Err(Missing(Member::ActionStatus)),
        ),
        (
            "{\"ClientVersion\":\"\",\"ProcessedClientActions\":[{\"ActionStatus\":\"1\"}]}",
            Err(Kind(Member::ActionStatus)),
        ),
        (
            "{\"ClientVersion\":\"\",\"ProcessedClientActions\":[{\"ActionStatus\":0}]}",
            Err(Range(Member::ActionStatus)),
        ),
        (
            "{\"ClientVersion\":\"\",\"ProcessedClientActions\":[{\"ActionStatus\":4}]}",
            Err(Range(Member::ActionStatus)),
        ),
        (
            "{\"ClientVersion\":\"\",\"ProcessedClientActions\":[{\"ActionStatus\":3}]}",
            Err(Missing(Member::ActionType)),
        ),
        (
            "{\"ClientVersion\":\"\",\"ProcessedClientActions\":[{\"ActionStatus\":1,\"ActionType\":1}]}",
            Err(Kind(Member::ActionType)),
        ),
        (
            "{\"ClientVersion\":\"\",\"ProcessedClientActions\":[{\"ActionStatus\":1,\"ActionType\":\"\",\"Error\":5}]}",
            Err(Kind(Member::Error)),
        ),
        (
            "{\"ClientVersion\":\"\",\"ProcessedClientActions\":[{\"ActionStatus\":1,\"ActionType\":\"\",\"Error\":null}]}",
            Ok(()),
        ),
    ];
    for (body, answer) in cases {
        let read = HandshakeResponse::read(rt.alloc(), body.as_bytes()).map(|_| ());
        assert_eq!(rt; read, answer, "of {body}");
    }
}

#[test]
fn each_fault_of_the_end_of_a_handshake_is_told(rt: HostRuntime) {
    let cases = [
        ("{}", Err(Missing(Member::HandshakeTimeToComplete))),
        (
            "{\"CustomerMessage\":1}",
            Err(Kind(Member::CustomerMessage)),
        ),
        (
            "{\"HandshakeTimeToComplete\":\"1\"}",
            Err(Kind(Member::HandshakeTimeToComplete)),
        ),
        (
            "{\"HandshakeTimeToComplete\":-1}",
            Err(Range(Member::HandshakeTimeToComplete)),
        ),
        (
            "{\"CustomerMessage\":null,\"HandshakeTimeToComplete\":9223372036854775807}",
            Ok(()),
        ),
        (
            "{\"HandshakeTimeToComplete\":9223372036854775808}",
            Err(Range(Member::HandshakeTimeToComplete)),
        ),
    ];
    for (body, answer) in cases {
        let read = HandshakeComplete::read(rt.alloc(), body.as_bytes()).map(|_| ());
        assert_eq!(rt; read, answer, "of {body}");
    }
}
