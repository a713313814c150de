//! The body of a handshake request.

ghost use Rattle.std.specs.Prelude.{◌≡◌, Ok, IfOk, IfErr, IsUtf8, All};
ghost use Rattle.serde_json.specs.View.{view};
ghost use Rattle.json_members.specs.Object.{object_with};
ghost use Rattle.json_members.specs.Members.{UnlessNoMemory};
ghost use Rattle.json_bodies.specs.Reading.{IsFirst, Shows, IsReading};

use crate::action::{Action, Actions};
use chan_values::{NoMemory, Text};
use json_members::reading::{object, objects_in, text};
use json_members::writing::{put_text, put_value};
use json_members::{BodyFault, Member};
use serde_json::{Map, Value};
use std::alloc::Global;

/// What the agent asks of the plugin at the beginning of a session.
#[derive(Debug, Drop)]
pub struct HandshakeRequest {
    /// AgentVersion: the version of the agent.
    pub agent_version: Text,
    /// RequestedClientActions: what the plugin is to do, in order. Absent and null are none.
    pub actions: Actions,
}

impl HandshakeRequest {
    ghost use Rattle.json_bodies.specs.HandshakeRequest.{GivesRequest, IsInRangeRequest, IsRequestBody, IsWritableRequest, request_faults, request_fields, request_text};
    ghost use Rattle.json_bodies.specs.Action.{IsTypedAction};

    /// The compact text, its keys in byte order. It is a body where
    /// no other action is named "SessionType".
    pub fn write(&self, alloc: Global) -> Result<Vec<u8>, NoMemory>
        ensures text { IfOk result (λ bytes. bytes.items ≡ request_text self.now) }
        ensures body { IsInRangeRequest self.now
            → IfOk result (λ bytes. IsRequestBody bytes.items self.now) }
    {
        let body = self.to_object(alloc)?;
        Ok(body.to_vec(alloc)?)
    }

    /// The request whose body the bytes are.
    pub fn read(alloc: Global, bytes: &[u8]) -> Result<HandshakeRequest, BodyFault>
        ensures reading { IsReading (IsRequestBody bytes.now) (Shows request_faults bytes.now)
            result }
        ensures written { (request : HandshakeRequest) → IsWritableRequest request
            → bytes.now ≡ request_text request → UnlessNoMemory result (Ok request) }
    {
        let body = object(alloc, bytes)?;
        HandshakeRequest::of_object(alloc, &body)
    }

    // The request as an object.
    fn to_object(&self, alloc: Global) -> Result<Value, NoMemory>
        ensures object { IfOk result (λ body. view body ≡ object_with (request_fields self.now)) }
        ensures agent_version { IfOk result (λ _. IsUtf8 self.now.agent_version) }
        ensures typed { IfOk result (λ _. All IsTypedAction self.now.actions) }
    {
        let actions = Action::to_array(alloc, self.actions.as_slice())?;
        let mut body = Map::new(alloc);
        put_text(alloc, &mut body, Member::AgentVersion, &self.agent_version)?;
        put_value(alloc, &mut body, Member::RequestedClientActions, actions)?;
        Ok(Value::Object(body))
    }

    // The request that the members of an object give.
    fn of_object(alloc: Global, body: &Value) -> Result<HandshakeRequest, BodyFault>
        ensures gives { IfOk result (GivesRequest (view body.now)) }
        ensures fault { IfErr result (IsFirst (request_faults (view body.now))) }
    {
        let agent_version = text(alloc, body, Member::AgentVersion)?;
        let actions = objects_in(body, Member::RequestedClientActions)?;
        Ok(HandshakeRequest {
            agent_version,
            actions: Action::of_objects(alloc, actions)?,
        })
    }
}
