//! The body of the end of a handshake.

ghost use Rattle.std.specs.Prelude.{◌≡◌, Ok, IfOk, IfErr, IsUtf8, ◌<◌, ◌^◌};
ghost use Rattle.serde_json.specs.View.{view};
ghost use Rattle.json_members.specs.Object.{object_with};
ghost use Rattle.json_members.specs.Members.{UnlessNoMemory};
ghost use Rattle.json_bodies.specs.Reading.{IsFirst, Shows, IsReading};

use chan_values::{NoMemory, Text};
use json_members::reading::{natural, object, text_or_empty};
use json_members::writing::{put_text, put_unsigned};
use json_members::{BodyFault, Member};
use serde_json::{Map, Value};
use std::alloc::Global;

/// What the agent says when the handshake is done.
#[derive(Debug, Drop)]
pub struct HandshakeComplete {
    /// CustomerMessage: a text for the user. Absent and null are the empty text.
    pub message: Text,
    /// HandshakeTimeToComplete: how long the handshake took, in nanoseconds, at most 2^63 - 1.
    pub nanos: u64,
}

impl HandshakeComplete {
    ghost use Rattle.json_bodies.specs.HandshakeComplete.{GivesComplete, IsInRangeComplete, IsCompleteBody, IsWritableComplete, complete_faults, complete_fields, complete_text};

    /// The compact text, its keys in byte order. It is a body where the time is in its
    /// range.
    pub fn write(&self, alloc: Global) -> Result<Vec<u8>, NoMemory>
        ensures text { IfOk result (λ bytes. bytes.items ≡ complete_text self.now) }
        ensures body { IsInRangeComplete self.now
            → IfOk result (λ bytes. IsCompleteBody bytes.items self.now) }
    {
        let body = self.to_object(alloc)?;
        Ok(body.to_vec(alloc)?)
    }

    /// The end of a handshake whose body the bytes are.
    pub fn read(alloc: Global, bytes: &[u8]) -> Result<HandshakeComplete, BodyFault>
        ensures reading { IsReading (IsCompleteBody bytes.now) (Shows complete_faults bytes.now)
            result }
        ensures written { (complete : HandshakeComplete) → IsWritableComplete complete
            → bytes.now ≡ complete_text complete → UnlessNoMemory result (Ok complete) }
    {
        let body = object(alloc, bytes)?;
        HandshakeComplete::of_object(alloc, &body)
    }

    // The end of a handshake as an object.
    fn to_object(&self, alloc: Global) -> Result<Value, NoMemory>
        ensures object { IfOk result (λ body. view body ≡ object_with (complete_fields self.now)) }
        ensures message { IfOk result (λ _. IsUtf8 self.now.message) }
        ensures nanos { IfOk result (λ _. self.now.nanos < 2 ^ 64) }
    {
        let mut body = Map::new(alloc);
        put_text(alloc, &mut body, Member::CustomerMessage, &self.message)?;
        put_unsigned(
            alloc,
            &mut body,
            Member::HandshakeTimeToComplete,
            self.nanos,
        )?;
        Ok(Value::Object(body))
    }

    // The end of a handshake that the members of an object give.
    fn of_object(alloc: Global, body: &Value) -> Result<HandshakeComplete, BodyFault>
        ensures gives { IfOk result (GivesComplete (view body.now)) }
        ensures fault { IfErr result (IsFirst (complete_faults (view body.now))) }
    {
        Ok(HandshakeComplete {
            message: text_or_empty(alloc, body, Member::CustomerMessage)?,
            nanos: natural(body, Member::HandshakeTimeToComplete)?,
        })
    }
}
