//! The body of a handshake response.

ghost use Rattle.std.specs.Prelude.{◌≡◌, Ok, IfOk, IfErr, IsUtf8, All};
ghost use Rattle.serde_json.specs.View.{view};
ghost use Rattle.json_members.specs.Object.{object_with};
ghost use Rattle.json_members.specs.Members.{UnlessNoMemory};
ghost use Rattle.json_bodies.specs.Reading.{IsFirst, Shows, IsReading};

use crate::processed::{Processed, ProcessedActions};
use chan_values::{NoMemory, Text};
use json_members::reading::{object, objects_in, text, texts};
use json_members::writing::{put_text, put_value, texts_array};
use json_members::{BodyFault, Member, Texts};
use serde_json::{Map, Value};
use std::alloc::Global;

/// What the plugin answers to a handshake request.
#[derive(Debug, Drop)]
pub struct HandshakeResponse {
    /// ClientVersion: the version of the plugin.
    pub client_version: Text,
    /// Errors: texts for the agent. Absent and null are none.
    pub errors: Texts,
    /// ProcessedClientActions: what became of each action that was requested, in order. Absent and
    /// null are none.
    pub actions: ProcessedActions,
}

impl HandshakeResponse {
    ghost use Rattle.json_bodies.specs.HandshakeResponse.{GivesResponse, IsInRangeResponse, IsResponseBody, IsWritableResponse, response_faults, response_fields, response_text};
    ghost use Rattle.json_bodies.specs.Processed.{IsTypedProcessed};

    /// The compact text, its keys in byte order. It is a body where
    /// each status is one of the three.
    pub fn write(&self, alloc: Global) -> Result<Vec<u8>, NoMemory>
        ensures text { IfOk result (λ bytes. bytes.items ≡ response_text self.now) }
        ensures body { IsInRangeResponse self.now
            → IfOk result (λ bytes. IsResponseBody bytes.items self.now) }
    {
        let body = self.to_object(alloc)?;
        Ok(body.to_vec(alloc)?)
    }

    /// The response whose body the bytes are.
    pub fn read(alloc: Global, bytes: &[u8]) -> Result<HandshakeResponse, BodyFault>
        ensures reading { IsReading (IsResponseBody bytes.now) (Shows response_faults bytes.now)
            result }
        ensures written { (response : HandshakeResponse) → IsWritableResponse response
            → bytes.now ≡ response_text response → UnlessNoMemory result (Ok response) }
    {
        let body = object(alloc, bytes)?;
        HandshakeResponse::of_object(alloc, &body)
    }

    // The response as an object.
    fn to_object(&self, alloc: Global) -> Result<Value, NoMemory>
        ensures object { IfOk result (λ body. view body ≡ object_with (response_fields self.now)) }
        ensures client_version { IfOk result (λ _. IsUtf8 self.now.client_version) }
        ensures errors { IfOk result (λ _. All IsUtf8 self.now.errors) }
        ensures typed { IfOk result (λ _. All IsTypedProcessed self.now.actions) }
    {
        let errors = texts_array(alloc, self.errors.as_slice())?;
        let actions = Processed::to_array(alloc, self.actions.as_slice())?;
        let mut body = Map::new(alloc);
        put_text(
            alloc,
            &mut body,
            Member::ClientVersion,
            &self.client_version,
        )?;
        put_value(alloc, &mut body, Member::Errors, errors)?;
        put_value(alloc, &mut body, Member::ProcessedClientActions, actions)?;
        Ok(Value::Object(body))
    }

    // The response that the members of an object give.
    fn of_object(alloc: Global, body: &Value) -> Result<HandshakeResponse, BodyFault>
        ensures gives { IfOk result (GivesResponse (view body.now)) }
        ensures fault { IfErr result (IsFirst (response_faults (view body.now))) }
    {
        let client_version = text(alloc, body, Member::ClientVersion)?;
        let errors = texts(alloc, body, Member::Errors)?;
        let actions = objects_in(body, Member::ProcessedClientActions)?;
        Ok(HandshakeResponse {
            client_version,
            errors,
            actions: Processed::of_objects(alloc, actions)?,
        })
    }
}
