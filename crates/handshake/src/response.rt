//! What a client answers to a request: the response, and the session that is agreed on.

ghost use Rattle.std.specs.Prelude.{◌≡◌, IfOk, IfErr, map, find, option_and_then, option_map};
ghost use Rattle.handshake.specs.Client.{IsNoRequest, IsRequest};
ghost use Rattle.handshake.specs.Items.{response_item};
ghost use Rattle.handshake.specs.Sessions.{action_name, agreed_session, asks_session, processed, response_to, session_asked};
ghost use Rattle.handshake.specs.Stops.{IfRefused};
ghost use Rattle.json_bodies.specs.declared.handshake_request.HandshakeRequest.{HandshakeRequest};

use crate::agreed::{Agreed, SessionType};
use crate::code::{HANDSHAKE_REQUEST, HANDSHAKE_RESPONSE, SESSION_ACTION, SUCCESS, UNSUPPORTED};
use crate::step::Why;
use crate::stop::Stop;
use chan_values::{Bytes, Item, MAX_PAYLOAD, NoMemory, Text};
use json_bodies::{
    Action, BodyFault, HandshakeRequest, HandshakeResponse, Member, Processed, ProcessedActions,
    Sequence,
};
use std::alloc::Global;

/// Error of an action that is not supported.
const UNSUPPORTED_TEXT: &str = "Unsupported";

/// The response to a request.
#[derive(Drop)]
pub(crate) struct Reply {
    /// Its item.
    pub item: Item,
    /// The session that is agreed on, if there is one.
    pub agreed: Option<Agreed>,
}

/// The response of a client with this version to the item, which has to be a request.
pub(crate) fn reply_to(alloc: Global, version: &Text, item: &Item) -> Result<Reply, Stop>
    ensures ok { IfOk result (λ reply.
        (request : HandshakeRequest) × IsRequest version.now item.now request
        × (reply.item ≡ response_item version.now request)
        × (reply.agreed ≡ agreed_session request)) }
    ensures refused { IfErr result (IfRefused (IsNoRequest version.now item.now)) }
{
    if item.ptype != HANDSHAKE_REQUEST {
        return Err(Stop::Refused(Why::Order(item.ptype)));
    }
    let request = HandshakeRequest::read(alloc, item.payload.as_slice())?;
    let payload = response_to(alloc, version, &request)?.write(alloc)?;
    if payload.len() > MAX_PAYLOAD {
        let fault = BodyFault::Range(Member::RequestedClientActions);
        return Err(Stop::Refused(Why::Body(fault)));
    }
    let item = Item {
        ptype: HANDSHAKE_RESPONSE,
        payload: Bytes::new(payload),
    };
    let agreed = agreed_session(alloc, request.actions.as_slice())?;
    Ok(Reply { item, agreed })
}

/// The response of a client with this version.
fn response_to(
    alloc: Global,
    version: &Text,
    request: &HandshakeRequest,
) -> Result<HandshakeResponse, NoMemory>
    ensures { IfOk result (λ response. response ≡ response_to version.now request.now) }
{
    Ok(HandshakeResponse {
        client_version: version.copy(alloc)?,
        errors: Sequence::none(alloc),
        actions: processed_actions(alloc, request.actions.as_slice())?,
    })
}

/// What becomes of each action.
fn processed_actions(alloc: Global, actions: &[Action]) -> Result<ProcessedActions, NoMemory>
    ensures { IfOk result (λ done. done ≡ map processed actions.now) }
{
    let mut done = Vec::new(alloc);
    for action in actions {
        done.push(processed(alloc, action)?)?;
    }
    Ok(Sequence::new(done))
}

/// What becomes of an action.
fn processed(alloc: Global, action: &Action) -> Result<Processed, NoMemory>
    ensures { IfOk result (λ done. done ≡ processed action.now) }
{
    let (status, error) = if asks_session(action) {
        (SUCCESS, "")
    } else {
        (UNSUPPORTED, UNSUPPORTED_TEXT)
    };
    Ok(Processed {
        status,
        name: Text::new(String::from_str(alloc, action_name(action))?),
        error: Text::new(String::from_str(alloc, error)?),
    })
}

/// ActionType of an action.
fn action_name(action: &Action) -> &str
    ensures { result.now ≡ action_name action.now }
{
    match action {
        Action::Session { .. } => SESSION_ACTION,
        Action::Other { name } => name.as_str(),
    }
}

/// Whether an action asks for a session of one of the two types.
fn asks_session(action: &Action) -> bool
    ensures { result ≡ asks_session action.now }
{
    match action {
        Action::Session { name, .. } => SessionType::of_name(name.as_str()).is_some(),
        Action::Other { .. } => false,
    }
}

/// The session that the first of these actions that asks for one of the two types asks for.
fn agreed_session(alloc: Global, actions: &[Action]) -> Result<Option<Agreed>, NoMemory>
    ensures { IfOk result
        (λ agreed. agreed ≡ option_and_then session_asked (find asks_session actions.now)) }
{
    match first_asking(actions) {
        Some(action) => session_asked(alloc, action),
        None => Ok(None),
    }
}

/// The first of these actions that asks for a session of one of the two types.
fn first_asking(actions: &[Action]) -> Option<&Action>
    ensures { option_map (λ action. action.now) result ≡ find asks_session actions.now }
{
    actions.iter().find(|action| asks_session(action))
}

/// The session that an action asks for, if it is of one of the two types.
fn session_asked(alloc: Global, action: &Action) -> Result<Option<Agreed>, NoMemory>
    ensures { IfOk result (λ asked. asked ≡ session_asked action.now) }
{
    let Action::Session { name, properties } = action else {
        return Ok(None);
    };
    let Some(session) = SessionType::of_name(name.as_str()) else {
        return Ok(None);
    };
    let properties = properties.copy(alloc)?;
    Ok(Some(Agreed {
        session,
        properties,
    }))
}
