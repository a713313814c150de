//! The writers of members, of which each body's `write` is made. Each adds to the object of a body.

ghost use Rattle.std.specs.Prelude.{◌≡◌, Some, IfSome, OnOk, IsUtf8, FitsSigned, option_map, All, IfOk, map, ◌<◌, ◌^◌};
ghost use Rattle.std.specs.Int.{w64};
ghost use Rattle.serde_json.specs.Data.{boolean, number, string, unsigned};
ghost use Rattle.serde_json.specs.Find.{of_integer};
ghost use Rattle.serde_json.specs.View.{view, members_view};
ghost use Rattle.uuid.specs.Text.{hyphenated_text, lower, parsed};
ghost use Rattle.json_members.specs.Object.{array_of, put_if};

use crate::member::Member;
use chan_values::{NoMemory, Text};
use serde_json::{Map, Value};
use std::alloc::Global;
use uuid::Uuid;

/// The members of an object.
pub type Members = Map<String, Value>;

/// A value of any kind.
pub fn put_value(
    alloc: Global,
    body: &mut Members,
    member: Member,
    value: Value,
) -> Result<(), NoMemory>
    ensures { OnOk result (members_view body.new.entries
        ≡ put_if member (Some (view value)) (members_view body.old.entries)) }
{
    Ok(serde_json::put(body, alloc, member.name(), value)?)
}

/// A text.
pub fn put_text(
    alloc: Global,
    body: &mut Members,
    member: Member,
    text: &Text,
) -> Result<(), NoMemory>
    ensures utf8 { IsUtf8 text.now }
    ensures put { OnOk result (members_view body.new.entries
        ≡ put_if member (Some (string text.now)) (members_view body.old.entries)) }
{
    put_value(alloc, body, member, text_value(alloc, text)?)
}

/// A text in place.
pub fn put_str(
    alloc: Global,
    body: &mut Members,
    member: Member,
    text: &str,
) -> Result<(), NoMemory>
    ensures utf8 { IsUtf8 text.now }
    ensures put { OnOk result (members_view body.new.entries
        ≡ put_if member (Some (string text.now)) (members_view body.old.entries)) }
{
    put_value(alloc, body, member, Value::try_from_str(alloc, text)?)
}

/// A text, where there is one.
pub fn put_optional_text(
    alloc: Global,
    body: &mut Members,
    member: Member,
    text: &Option<Text>,
) -> Result<(), NoMemory>
    ensures utf8 { IfSome text.now IsUtf8 }
    ensures put { OnOk result (members_view body.new.entries
        ≡ put_if member (option_map string text.now) (members_view body.old.entries)) }
{
    match text {
        Some(text) => put_text(alloc, body, member, text),
        None => Ok(()),
    }
}

/// A truth value.
pub fn put_truth(
    alloc: Global,
    body: &mut Members,
    member: Member,
    truth: bool,
) -> Result<(), NoMemory>
    ensures { OnOk result (members_view body.new.entries
        ≡ put_if member (Some (boolean truth)) (members_view body.old.entries)) }
{
    put_value(alloc, body, member, Value::from(truth))
}

/// A whole number with a sign.
pub fn put_signed(
    alloc: Global,
    body: &mut Members,
    member: Member,
    whole: i64,
) -> Result<(), NoMemory>
    ensures range { FitsSigned w64 whole }
    ensures put { OnOk result (members_view body.new.entries
        ≡ put_if member (Some (number (of_integer whole))) (members_view body.old.entries)) }
{
    put_value(alloc, body, member, Value::from(whole))
}

/// A whole number without a sign.
pub fn put_unsigned(
    alloc: Global,
    body: &mut Members,
    member: Member,
    whole: u64,
) -> Result<(), NoMemory>
    ensures range { whole < 2 ^ 64 }
    ensures put { OnOk result (members_view body.new.entries
        ≡ put_if member (Some (number (unsigned whole))) (members_view body.old.entries)) }
{
    put_value(alloc, body, member, Value::from(whole))
}

/// An id, as its hyphenated lower-case text.
pub fn put_id(
    alloc: Global,
    body: &mut Members,
    member: Member,
    id: [u8; 16],
) -> Result<(), NoMemory>
    ensures reads { parsed (hyphenated_text lower id) ≡ Some id }
    ensures put { OnOk result (members_view body.new.entries
        ≡ put_if member (Some (string (hyphenated_text lower id)))
        (members_view body.old.entries)) }
{
    let mut buffer = Uuid::encode_buffer();
    let id = Uuid::from_bytes(id).hyphenated();
    put_str(alloc, body, member, id.encode_lower(&mut buffer))
}

/// Texts as a list.
pub fn texts_array(alloc: Global, texts: &[Text]) -> Result<Value, NoMemory>
    ensures array { IfOk result (λ list. view list ≡ array_of (map string texts.now)) }
    ensures utf8 { IfOk result (λ _. All IsUtf8 texts.now) }
{
    let mut list = Vec::new(alloc);
    for text in texts {
        list.push(text_value(alloc, text)?)?;
    }
    Ok(Value::Array(list))
}

// A text as a value.
fn text_value(alloc: Global, text: &Text) -> Result<Value, NoMemory>
    ensures value { IfOk result (λ value. view value ≡ string text.now) }
    ensures utf8 { IsUtf8 text.now }
{
    Ok(Value::try_from_str(alloc, text.as_str())?)
}
