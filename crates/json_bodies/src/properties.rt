//! The properties of a session.

ghost use Rattle.std.specs.Prelude.{◌≡◌, None, IfOk, IfErr};
ghost use Rattle.serde_json.specs.View.{view};
ghost use Rattle.json_members.specs.Object.{object_with};
ghost use Rattle.json_bodies.specs.Reading.{IsFirst};

use chan_values::{NoMemory, Text};
use json_members::reading::optional_text;
use json_members::writing::put_optional_text;
use json_members::{BodyFault, Member};
use serde_json::{Map, Value};
use std::alloc::Global;

/// What a session is to do, beside its type.
#[derive(Debug, Drop)]
pub struct Properties {
    /// localPortNumber: the port on the plugin's side, in decimal digits; any text is read.
    pub local_port: Option<Text>,
    /// portNumber: the port on the agent's side, in decimal digits; any text is read.
    pub port: Option<Text>,
    /// type: how the port is forwarded, as "LocalPortForwarding".
    pub kind: Option<Text>,
}

impl Properties {
    ghost use Rattle.json_bodies.specs.Properties.{GivesProperties, IsWritableProperties, properties_faults, properties_fields};

    /// No properties.
    pub fn none() -> Properties
        ensures local_port { result.local_port ≡ None }
        ensures port { result.port ≡ None }
        ensures kind { result.kind ≡ None }
    {
        Properties {
            local_port: None,
            port: None,
            kind: None,
        }
    }

    /// The same properties a second time.
    pub fn copy(&self, alloc: Global) -> Result<Properties, NoMemory>
        ensures { IfOk result (λ copied. copied ≡ self.now) }
    {
        Ok(Properties {
            local_port: copy_of(alloc, &self.local_port)?,
            port: copy_of(alloc, &self.port)?,
            kind: copy_of(alloc, &self.kind)?,
        })
    }

    /// The properties as an object.
    pub(crate) fn to_object(&self, alloc: Global) -> Result<Value, NoMemory>
        ensures object { IfOk result
            (λ body. view body ≡ object_with (properties_fields self.now)) }
        ensures writable { IfOk result (λ _. IsWritableProperties self.now) }
    {
        let mut body = Map::new(alloc);
        put_optional_text(alloc, &mut body, Member::LocalPortNumber, &self.local_port)?;
        put_optional_text(alloc, &mut body, Member::PortNumber, &self.port)?;
        put_optional_text(alloc, &mut body, Member::Type_, &self.kind)?;
        Ok(Value::Object(body))
    }

    /// The properties that the members of an object give.
    pub(crate) fn of_object(alloc: Global, body: &Value) -> Result<Properties, BodyFault>
        ensures gives { IfOk result (GivesProperties (view body.now)) }
        ensures fault { IfErr result (IsFirst (properties_faults (view body.now))) }
    {
        Ok(Properties {
            local_port: optional_text(alloc, body, Member::LocalPortNumber)?,
            port: optional_text(alloc, body, Member::PortNumber)?,
            kind: optional_text(alloc, body, Member::Type_)?,
        })
    }
}

fn copy_of(alloc: Global, text: &Option<Text>) -> Result<Option<Text>, NoMemory>
    ensures { IfOk result (λ copied. copied ≡ text.now) }
{
    match text {
        Some(text) => Ok(Some(text.copy(alloc)?)),
        None => Ok(None),
    }
}
