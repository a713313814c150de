//! The client's side.

use super::{COMPLETION, PORT_REQUEST, REQUEST, RESPONSE, done, item, pass, put, refused, text};
use crate::{ClientSide, SessionType, Why};
use json_bodies::{BodyFault, Member};
use std::alloc::Global;
use std::test::Fail;

fn client(alloc: Global) -> Result<ClientSide, Fail> {
    let version = text(alloc, "1.2.0.0")?;
    Ok(ClientSide::new(alloc, version))
}

#[test]
fn a_request_is_answered(rt: HostRuntime) -> Result<(), Fail> {
    let mut client = client(rt.alloc())?;
    let response = put(client.step(item(rt.alloc(), 5, REQUEST)?, 0))?;
    assert_eq!(rt; response.ptype, 6);
    assert!(rt;
        response.payload.as_slice() == RESPONSE.as_bytes(),
        "the response is the example"
    );
    Ok(())
}

#[test]
fn a_completion_begins_the_session(rt: HostRuntime) -> Result<(), Fail> {
    let mut client = client(rt.alloc())?;
    let _response = put(client.step(item(rt.alloc(), 5, REQUEST)?, 0))?;
    let agreed = done(client.step(item(rt.alloc(), 7, COMPLETION)?, 0))?;
    assert_eq!(rt; agreed.session, SessionType::Standard);
    let back = pass(client.step(item(rt.alloc(), 5, "a")?, 0))?;
    assert_eq!(rt; back.ptype, 5);
    assert!(rt;
        back.payload.as_slice() == b"a".as_slice(),
        "the item is passed on"
    );
    Ok(())
}

#[test]
fn a_port_is_agreed_on(rt: HostRuntime) -> Result<(), Fail> {
    let mut client = client(rt.alloc())?;
    let _response = put(client.step(item(rt.alloc(), 5, PORT_REQUEST)?, 0))?;
    let agreed = done(client.step(item(rt.alloc(), 7, COMPLETION)?, 0))?;
    assert_eq!(rt; agreed.session, SessionType::Port);
    match &agreed.properties.port {
        Some(port) => assert!(rt; port.as_str() == "80", "the port is told"),
        None => assert!(rt; false, "there is a port"),
    }
    Ok(())
}

#[test]
fn an_item_out_of_order_is_refused(rt: HostRuntime) -> Result<(), Fail> {
    let mut client = client(rt.alloc())?;
    let first = refused(client.step(item(rt.alloc(), 1, "")?, 0))?;
    assert_eq!(rt; first, Why::Order(1));
    let second = refused(client.step(item(rt.alloc(), 5, REQUEST)?, 0))?;
    assert_eq!(rt; second, Why::Order(1));
    Ok(())
}

#[test]
fn a_body_of_another_form_is_refused(rt: HostRuntime) -> Result<(), Fail> {
    let mut client = client(rt.alloc())?;
    let _response = put(client.step(item(rt.alloc(), 5, REQUEST)?, 0))?;
    let why = refused(client.step(item(rt.alloc(), 7, "[]")?, 0))?;
    assert_eq!(rt; why, Why::Body(BodyFault::NotObject));
    Ok(())
}

#[test]
fn without_a_session_the_next_item_is_refused(rt: HostRuntime) -> Result<(), Fail> {
    let mut client = client(rt.alloc())?;
    let request = "{\"AgentVersion\":\"\"}";
    let _response = put(client.step(item(rt.alloc(), 5, request)?, 0))?;
    let why = refused(client.step(item(rt.alloc(), 7, COMPLETION)?, 0))?;
    assert_eq!(rt; why, Why::NoSession);
    Ok(())
}

#[test]
fn a_response_that_fits_no_message_is_not_made(rt: HostRuntime) -> Result<(), Fail> {
    let mut client = client(rt.alloc())?;
    let mut request = String::from_str(
        rt.alloc(),
        "{\"AgentVersion\":\"\",\"RequestedClientActions\":[",
    )?;
    for _action in 0..1000 {
        request.push_str("{\"ActionType\":\"x\"},")?;
    }
    request.push_str("{\"ActionType\":\"x\"}]}")?;
    let why = refused(client.step(item(rt.alloc(), 5, request.as_str())?, 0))?;
    let fault = BodyFault::Range(Member::RequestedClientActions);
    assert_eq!(rt; why, Why::Body(fault));
    Ok(())
}
