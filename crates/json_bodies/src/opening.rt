//! The body of an opening.

ghost use Rattle.std.specs.Prelude.{◌≡◌, Ok, IfOk, IfErr};
ghost use Rattle.serde_json.specs.View.{view};
ghost use Rattle.json_members.specs.Object.{object_with};
ghost use Rattle.json_members.specs.Members.{UnlessNoMemory};
ghost use Rattle.json_bodies.specs.Reading.{IsFirst, Shows, IsReading};

use chan_values::{NoMemory, Text};
use json_members::reading::{fixed_text, object, optional_text, text};
use json_members::writing::{put_optional_text, put_str, put_text};
use json_members::{BodyFault, Member};
use serde_json::{Map, Value};
use std::alloc::Global;

/// MessageSchemaVersion of an opening.
const SCHEMA_VERSION: &str = "1.0";

/// What an end says first on a connection.
#[derive(Debug, Drop)]
pub struct Opening {
    /// ClientId: who opens the channel.
    pub client_id: Text,
    /// ClientVersion: the version of the plugin.
    pub client_version: Option<Text>,
    /// RequestId: the id of the request.
    pub request_id: Text,
    /// TokenValue: the session, the end's side and its token.
    pub token: Text,
}

impl Opening {
    ghost use Rattle.json_bodies.specs.Opening.{GivesOpening, IsOpeningBody, IsWritableOpening, opening_faults, opening_fields, opening_text};

    /// The compact text, its keys in byte order.
    pub fn write(&self, alloc: Global) -> Result<Vec<u8>, NoMemory>
        ensures text { IfOk result (λ bytes. bytes.items ≡ opening_text self.now) }
        ensures body { IfOk result (λ bytes. IsOpeningBody bytes.items self.now) }
    {
        let body = self.to_object(alloc)?;
        Ok(body.to_vec(alloc)?)
    }

    /// The opening whose body the bytes are.
    pub fn read(alloc: Global, bytes: &[u8]) -> Result<Opening, BodyFault>
        ensures reading { IsReading (IsOpeningBody bytes.now) (Shows opening_faults bytes.now)
            result }
        ensures written { (opening : Opening) → IsWritableOpening opening
            → bytes.now ≡ opening_text opening → UnlessNoMemory result (Ok opening) }
    {
        let body = object(alloc, bytes)?;
        Opening::of_object(alloc, &body)
    }

    // The opening as an object.
    fn to_object(&self, alloc: Global) -> Result<Value, NoMemory>
        ensures object { IfOk result (λ body. view body ≡ object_with (opening_fields self.now)) }
        ensures writable { IfOk result (λ _. IsWritableOpening self.now) }
    {
        let mut body = Map::new(alloc);
        put_text(alloc, &mut body, Member::ClientId, &self.client_id)?;
        put_optional_text(
            alloc,
            &mut body,
            Member::ClientVersion,
            &self.client_version,
        )?;
        put_str(
            alloc,
            &mut body,
            Member::MessageSchemaVersion,
            SCHEMA_VERSION,
        )?;
        put_text(alloc, &mut body, Member::RequestId, &self.request_id)?;
        put_text(alloc, &mut body, Member::TokenValue, &self.token)?;
        Ok(Value::Object(body))
    }

    // The opening that the members of an object give.
    fn of_object(alloc: Global, body: &Value) -> Result<Opening, BodyFault>
        ensures gives { IfOk result (GivesOpening (view body.now)) }
        ensures fault { IfErr result (IsFirst (opening_faults (view body.now))) }
    {
        let client_id = text(alloc, body, Member::ClientId)?;
        let client_version = optional_text(alloc, body, Member::ClientVersion)?;
        fixed_text(body, Member::MessageSchemaVersion, SCHEMA_VERSION)?;
        Ok(Opening {
            client_id,
            client_version,
            request_id: text(alloc, body, Member::RequestId)?,
            token: text(alloc, body, Member::TokenValue)?,
        })
    }
}
