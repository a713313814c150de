//! A requested action.

ghost use Rattle.std.specs.Prelude.{◌≡◌, IfOk, IfErr, IsUtf8, All, map, flat_map};
ghost use Rattle.std.specs.List.{AllZip};
ghost use Rattle.serde_json.specs.View.{view};
ghost use Rattle.json_members.specs.Object.{array_of, object_with};
ghost use Rattle.json_bodies.specs.Reading.{IsFirst};

use crate::properties::Properties;
use chan_values::{NoMemory, Text};
use json_members::reading::{object_in, optional_object, text, text_in};
use json_members::writing::{put_str, put_text, put_value};
use json_members::{BodyFault, Member, Sequence};
use serde_json::{Map, Value};
use std::alloc::Global;

/// ActionType of the action that begins a session.
const SESSION_ACTION: &str = "SessionType";

/// What the agent asks the plugin to do.
#[derive(Debug, Drop)]
pub enum Action {
    /// To begin a session (ActionType "SessionType").
    Session {
        /// SessionType: the type of the session, as "Standard_Stream" or "Port".
        name: Text,
        /// Properties: what the session is to do.
        properties: Properties,
    },
    /// Another action. Its parameters are passed over, and written without members.
    Other {
        /// ActionType: another name than "SessionType".
        name: Text,
    },
}

/// A list of requested actions.
pub type Actions = Sequence<Action>;

impl Action {
    ghost use Rattle.json_bodies.specs.Action.{GivesAction, GivesParameters, IsTypedAction, action_faults, action_fields, parameters_faults, parameters_fields};
    ghost use Rattle.json_bodies.specs.Properties.{IsWritableProperties};
    ghost use Rattle.json_bodies.specs.declared.action.Action.TheVariants.{Session, Other};

    /// The actions as a list of objects.
    pub(crate) fn to_array(alloc: Global, actions: &[Action]) -> Result<Value, NoMemory>
        ensures array { IfOk result (λ list. view list
            ≡ array_of (map (λ action. object_with (action_fields action)) actions.now)) }
        ensures typed { IfOk result (λ _. All IsTypedAction actions.now) }
    {
        let mut list = Vec::new(alloc);
        for action in actions {
            list.push(action.to_object(alloc)?)?;
        }
        Ok(Value::Array(list))
    }

    /// The actions that objects give, each by its members.
    pub(crate) fn of_objects(alloc: Global, objects: &[Value]) -> Result<Actions, BodyFault>
        ensures gives { IfOk result (AllZip GivesAction (map view objects.now)) }
        ensures fault { IfErr result (IsFirst (flat_map action_faults (map view objects.now))) }
    {
        let mut actions = Vec::new(alloc);
        for object in objects {
            actions.push(Action::of_object(alloc, object)?)?;
        }
        Ok(Sequence::new(actions))
    }

    // The action as an object.
    fn to_object(&self, alloc: Global) -> Result<Value, NoMemory>
        ensures object { IfOk result (λ body. view body ≡ object_with (action_fields self.now)) }
        ensures typed { IfOk result (λ _. IsTypedAction self.now) }
    {
        match self {
            Action::Session { name, properties } => {
                Action::session_object(alloc, name, properties)
            }
            Action::Other { name } => Action::other_object(alloc, name),
        }
    }

    fn session_object(
        alloc: Global,
        name: &Text,
        properties: &Properties,
    ) -> Result<Value, NoMemory>
        ensures object { IfOk result (λ body. view body
            ≡ object_with (action_fields (Session name.now properties.now))) }
        ensures typed { IfOk result (λ _. IsTypedAction (Session name.now properties.now)) }
    {
        let parameters = Action::parameters_object(alloc, name, properties)?;
        let mut body = Map::new(alloc);
        put_value(alloc, &mut body, Member::ActionParameters, parameters)?;
        put_str(alloc, &mut body, Member::ActionType, SESSION_ACTION)?;
        Ok(Value::Object(body))
    }

    fn other_object(alloc: Global, name: &Text) -> Result<Value, NoMemory>
        ensures object { IfOk result
            (λ body. view body ≡ object_with (action_fields (Other name.now))) }
        ensures typed { IfOk result (λ _. IsTypedAction (Other name.now)) }
    {
        let parameters = Value::Object(Map::new(alloc));
        let mut body = Map::new(alloc);
        put_value(alloc, &mut body, Member::ActionParameters, parameters)?;
        put_text(alloc, &mut body, Member::ActionType, name)?;
        Ok(Value::Object(body))
    }

    fn parameters_object(
        alloc: Global,
        name: &Text,
        properties: &Properties,
    ) -> Result<Value, NoMemory>
        ensures object { IfOk result (λ body. view body
            ≡ object_with (parameters_fields name.now properties.now)) }
        ensures name { IfOk result (λ _. IsUtf8 name.now) }
        ensures properties { IfOk result (λ _. IsWritableProperties properties.now) }
    {
        let properties = properties.to_object(alloc)?;
        let mut body = Map::new(alloc);
        put_value(alloc, &mut body, Member::Properties, properties)?;
        put_text(alloc, &mut body, Member::SessionType, name)?;
        Ok(Value::Object(body))
    }

    // The action that the members of an object give.
    fn of_object(alloc: Global, body: &Value) -> Result<Action, BodyFault>
        ensures gives { IfOk result (GivesAction (view body.now)) }
        ensures fault { IfErr result (IsFirst (action_faults (view body.now))) }
    {
        let name = text_in(body, Member::ActionType)?;
        if name == SESSION_ACTION {
            let parameters = object_in(body, Member::ActionParameters)?;
            let (name, properties) = Action::parameters_of(alloc, parameters)?;
            return Ok(Action::Session { name, properties });
        }
        let name = Text::new(String::from_str(alloc, name)?);
        Ok(Action::Other { name })
    }

    // The session's type and properties.
    fn parameters_of(alloc: Global, body: &Value) -> Result<(Text, Properties), BodyFault>
        ensures gives { IfOk result
            (λ parameters. GivesParameters (view body.now) parameters.0 parameters.1) }
        ensures fault { IfErr result (IsFirst (parameters_faults (view body.now))) }
    {
        let name = text(alloc, body, Member::SessionType)?;
        let properties = match optional_object(body, Member::Properties)? {
            Some(properties) => Properties::of_object(alloc, properties)?,
            None => Properties::none(),
        };
        Ok((name, properties))
    }
}
