//! The body of the reply to an opening.

ghost use Rattle.std.specs.Prelude.{◌≡◌, Ok, IfOk, IfErr, IsUtf8};
ghost use Rattle.std.specs.List.{list_all};
ghost use Rattle.serde_json.specs.View.{view};
ghost use Rattle.json_members.specs.Object.{object_with};
ghost use Rattle.json_members.specs.Members.{UnlessNoMemory};
ghost use Rattle.json_bodies.specs.Reading.{IsFirst, Shows, IsReading};
ghost use Rattle.json_bodies.specs.Token.{is_digit, is_resume, is_token, resume_at};

use chan_values::{NoMemory, Text};
use json_members::reading::{object, text_in, truth};
use json_members::writing::{put_text, put_truth};
use json_members::{BodyFault, Member};
use serde_json::{Map, Value};
use std::alloc::Global;

/// What the relay replies to an opening.
#[derive(Debug, Drop)]
pub struct Opened {
    /// Accepted: whether the channel is open.
    pub accepted: bool,
    /// Ended: whether the session has ended.
    pub ended: bool,
    /// ResumeToken: the token of the next opening in 32 lower-case hexadecimal digits. It may be
    /// empty where the opening was not accepted.
    pub resume: Text,
}

impl Opened {
    ghost use Rattle.json_bodies.specs.Opened.{GivesOpened, IsInRangeOpened, IsOpenedBody, IsWritableOpened, opened_faults, opened_fields, opened_text};

    /// The compact text, its keys in byte order. It is a body where the token is in its range.
    pub fn write(&self, alloc: Global) -> Result<Vec<u8>, NoMemory>
        ensures text { IfOk result (λ bytes. bytes.items ≡ opened_text self.now) }
        ensures body { IsInRangeOpened self.now
            → IfOk result (λ bytes. IsOpenedBody bytes.items self.now) }
    {
        let body = self.to_object(alloc)?;
        Ok(body.to_vec(alloc)?)
    }

    /// The reply whose body the bytes are.
    pub fn read(alloc: Global, bytes: &[u8]) -> Result<Opened, BodyFault>
        ensures reading { IsReading (IsOpenedBody bytes.now) (Shows opened_faults bytes.now)
            result }
        ensures written { (opened : Opened) → IsWritableOpened opened
            → bytes.now ≡ opened_text opened → UnlessNoMemory result (Ok opened) }
    {
        let body = object(alloc, bytes)?;
        Opened::of_object(alloc, &body)
    }

    // The reply as an object.
    fn to_object(&self, alloc: Global) -> Result<Value, NoMemory>
        ensures object { IfOk result (λ body. view body ≡ object_with (opened_fields self.now)) }
        ensures utf8 { IfOk result (λ _. IsUtf8 self.now.resume) }
    {
        let mut body = Map::new(alloc);
        put_truth(alloc, &mut body, Member::Accepted, self.accepted)?;
        put_truth(alloc, &mut body, Member::Ended, self.ended)?;
        put_text(alloc, &mut body, Member::ResumeToken, &self.resume)?;
        Ok(Value::Object(body))
    }

    // The reply that the members of an object give.
    fn of_object(alloc: Global, body: &Value) -> Result<Opened, BodyFault>
        ensures gives { IfOk result (GivesOpened (view body.now)) }
        ensures fault { IfErr result (IsFirst (opened_faults (view body.now))) }
    {
        let accepted = truth(body, Member::Accepted)?;
        Ok(Opened {
            accepted,
            ended: truth(body, Member::Ended)?,
            resume: resume(alloc, body, accepted)?,
        })
    }
}

// The token of the next opening, after this answer.
fn resume(alloc: Global, body: &Value, accepted: bool) -> Result<Text, BodyFault>
    ensures { UnlessNoMemory result (resume_at accepted (view body.now)) }
{
    let text = text_in(body, Member::ResumeToken)?;
    if !is_resume(accepted, text) {
        return Err(BodyFault::Range(Member::ResumeToken));
    }
    Ok(Text::new(String::from_str(alloc, text)?))
}

// Whether the text may stand there after this answer.
fn is_resume(accepted: bool, text: &str) -> bool
    ensures { result ≡ is_resume accepted text.now }
{
    is_token(text.as_bytes()) || (!accepted && text.is_empty())
}

// Whether these are the digits of a token.
fn is_token(text: &[u8]) -> bool
    ensures { result ≡ is_token text.now }
{
    text.len() == 32 && has_digits_alone(text)
}

fn has_digits_alone(text: &[u8]) -> bool
    ensures { result ≡ list_all is_digit text.now }
{
    text.iter().all(|byte| is_digit(*byte))
}

// A lower-case hexadecimal digit.
fn is_digit(byte: u8) -> bool
    ensures { result ≡ is_digit byte }
{
    matches!(byte, b'0'..=b'9' | b'a'..=b'f')
}
