//! The agent's side.

ghost use Rattle.std.specs.Prelude.{◌≡◌, ◌≤◌, IfOk, true};
ghost use Rattle.handshake.specs.AgentState.{is_asked};
ghost use Rattle.handshake.specs.Sessions.{properties_bytes};

use super::{COMPLETION, PORT_REQUEST, RESPONSE, finish, item, pass, refused, text};
use crate::laws::short_requests_fit;
use crate::{AgentSide, Agreed, Properties, SessionType, Why};
use json_bodies::BodyFault;
use std::alloc::Global;
use std::test::Fail;

fn asked(alloc: Global, now: u64) -> Result<AgentSide, Fail>
    ensures { IfOk result (λ agent. is_asked agent ≡ true) }
{
    short_requests_fit();
    let mut agent = AgentSide::new(
        alloc,
        Agreed {
            session: SessionType::Standard,
            properties: Properties::none(),
        },
    );
    let _request = agent.request(now)?;
    Ok(agent)
}

#[test]
fn a_response_finishes_the_handshake(rt: HostRuntime) -> Result<(), Fail> {
    let mut agent = asked(rt.alloc(), 5)?;
    let (completion, agreed) = finish(agent.step(item(rt.alloc(), 6, RESPONSE)?, 9))?;
    assert_eq!(rt; completion.ptype, 7);
    assert!(rt;
        completion.payload.as_slice() == COMPLETION.as_bytes(),
        "the completion is the example"
    );
    assert_eq!(rt; agreed.session, SessionType::Standard);
    let back = pass(agent.step(item(rt.alloc(), 6, "a")?, 9))?;
    assert_eq!(rt; back.ptype, 6);
    assert!(rt;
        back.payload.as_slice() == b"a".as_slice(),
        "the item is passed on"
    );
    Ok(())
}

fn port(alloc: Global) -> Result<Agreed, Fail>
    ensures { IfOk result (λ choice. properties_bytes choice.properties ≤ 10000) }
{
    let port = text(alloc, "80")?;
    let kind = text(alloc, "LocalPortForwarding")?;
    Ok(Agreed {
        session: SessionType::Port,
        properties: Properties {
            local_port: None,
            port: Some(port),
            kind: Some(kind),
        },
    })
}

#[test]
fn a_port_is_asked_for(rt: HostRuntime) -> Result<(), Fail> {
    short_requests_fit();
    let mut agent = AgentSide::new(rt.alloc(), port(rt.alloc())?);
    let request = agent.request(0)?;
    assert_eq!(rt; request.ptype, 5);
    assert!(rt;
        request.payload.as_slice() == PORT_REQUEST.as_bytes(),
        "the request is the example"
    );
    Ok(())
}

#[test]
fn a_response_without_actions_is_refused_for_good(rt: HostRuntime) -> Result<(), Fail> {
    let mut agent = asked(rt.alloc(), 0)?;
    let first = refused(agent.step(item(rt.alloc(), 6, "{\"ClientVersion\":\"\"}")?, 0))?;
    assert_eq!(rt; first, Why::NoSession);
    let second = refused(agent.step(item(rt.alloc(), 6, RESPONSE)?, 0))?;
    assert_eq!(rt; second, Why::NoSession);
    Ok(())
}

#[test]
fn other_responses_are_refused(rt: HostRuntime) -> Result<(), Fail> {
    let failed =
        "{\"ClientVersion\":\"\",\"ProcessedClientActions\":[{\"ActionStatus\":3,\"ActionType\":\"other\"},{\"ActionStatus\":2,\"ActionType\":\"SessionType\"}]}";
    let cases = [
        (7, "", Why::Order(7)),
        (6, "{", Why::Body(BodyFault::NotJson)),
        (6, failed, Why::Failed(2)),
    ];
    for (ptype, payload, why) in cases {
        let mut agent = asked(rt.alloc(), 0)?;
        let answer = refused(agent.step(item(rt.alloc(), ptype, payload)?, 0))?;
        assert_eq!(rt; answer, why);
    }
    Ok(())
}
