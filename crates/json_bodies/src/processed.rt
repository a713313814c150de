//! A processed action.

ghost use Rattle.std.specs.Prelude.{◌≡◌, Ok, Err, IfOk, IfErr, MatchResult, All, map, flat_map, pos};
ghost use Rattle.std.specs.List.{AllZip};
ghost use Rattle.serde_json.specs.View.{view};
ghost use Rattle.json_members.specs.Object.{array_of, object_with};
ghost use Rattle.json_members.specs.Members.{whole_at};
ghost use Rattle.json_bodies.specs.Reading.{IsFirst};

use chan_values::{NoMemory, Text};
use json_members::reading::{text, text_or_empty, whole};
use json_members::writing::{put_text, put_unsigned, put_value};
use json_members::{BodyFault, Member, Sequence};
use serde_json::{Map, Value};
use std::alloc::Global;

/// What became of a requested action. Its ActionResult is written null, and not looked at when read.
#[derive(Debug, Drop)]
pub struct Processed {
    /// ActionStatus: 1 (Success), 2 (Failed) or 3 (Unsupported).
    pub status: u8,
    /// ActionType: the name of the action.
    pub name: Text,
    /// Error: what went wrong. Absent and null are the empty text.
    pub error: Text,
}

/// A list of processed actions.
pub type ProcessedActions = Sequence<Processed>;

impl Processed {
    ghost use Rattle.json_bodies.specs.Processed.{GivesProcessed, IsTypedProcessed, processed_faults, processed_fields};

    /// The processed actions as a list of objects.
    pub(crate) fn to_array(alloc: Global, actions: &[Processed]) -> Result<Value, NoMemory>
        ensures array { IfOk result (λ list. view list
            ≡ array_of (map (λ action. object_with (processed_fields action)) actions.now)) }
        ensures typed { IfOk result (λ _. All IsTypedProcessed actions.now) }
    {
        let mut list = Vec::new(alloc);
        for action in actions {
            list.push(action.to_object(alloc)?)?;
        }
        Ok(Value::Array(list))
    }

    /// The processed actions that objects give, each by its members.
    pub(crate) fn of_objects(
        alloc: Global,
        objects: &[Value],
    ) -> Result<ProcessedActions, BodyFault>
        ensures gives { IfOk result (AllZip GivesProcessed (map view objects.now)) }
        ensures fault { IfErr result (IsFirst (flat_map processed_faults (map view objects.now))) }
    {
        let mut actions = Vec::new(alloc);
        for object in objects {
            actions.push(Processed::of_object(alloc, object)?)?;
        }
        Ok(Sequence::new(actions))
    }

    // The processed action as an object.
    fn to_object(&self, alloc: Global) -> Result<Value, NoMemory>
        ensures object { IfOk result
            (λ body. view body ≡ object_with (processed_fields self.now)) }
        ensures typed { IfOk result (λ _. IsTypedProcessed self.now) }
    {
        let mut body = Map::new(alloc);
        put_value(alloc, &mut body, Member::ActionResult, Value::Null)?;
        put_unsigned(
            alloc,
            &mut body,
            Member::ActionStatus,
            u64::from(self.status),
        )?;
        put_text(alloc, &mut body, Member::ActionType, &self.name)?;
        put_text(alloc, &mut body, Member::Error, &self.error)?;
        Ok(Value::Object(body))
    }

    // The processed action that the members of an object give.
    fn of_object(alloc: Global, body: &Value) -> Result<Processed, BodyFault>
        ensures gives { IfOk result (GivesProcessed (view body.now)) }
        ensures fault { IfErr result (IsFirst (processed_faults (view body.now))) }
    {
        Ok(Processed {
            status: status_of(body)?,
            name: text(alloc, body, Member::ActionType)?,
            error: text_or_empty(alloc, body, Member::Error)?,
        })
    }
}

// The status, in the range of the table.
fn status_of(body: &Value) -> Result<u8, BodyFault>
    ensures { MatchResult result
        (λ status. whole_at (pos 1) (pos 3) (view body.now) Member.ActionStatus ≡ Ok (pos status))
        (λ fault. whole_at (pos 1) (pos 3) (view body.now) Member.ActionStatus ≡ Err fault) }
{
    Ok(whole(body, Member::ActionStatus, 1, 3)? as u8)
}
