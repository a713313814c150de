//! The readers of members, of which each body's `read` is made. Each takes the object of a body.

ghost use Rattle.std.specs.Prelude.{◌≡◌, ◌⊎◌, Some, None, Ok, Err, IfOk, IfErr, MatchResult, is_some, pos, map, ◌-◌, ◌^◌};
ghost use Rattle.std.specs.List.{list_all};
ghost use Rattle.std.specs.Option.{option_map_or};
ghost use Rattle.serde_json.specs.Data.{object, no_members};
ghost use Rattle.serde_json.specs.Find.{get, as_object};
ghost use Rattle.serde_json.specs.View.{view};
ghost use Rattle.json_members.specs.Member.{name_of};
ghost use Rattle.json_members.specs.Members.{object_of, text_at, optional_text_at, fixed_text_at, text_or_empty_at, texts_at, truth_at, whole_at, i64_at, u32_at, id_at, object_at, object_or_empty_at, list_at, objects_at, is_given, UnlessNoMemory};

use crate::body_fault::BodyFault;
use crate::member::Member;
use crate::sequence::{Sequence, Texts};
use chan_values::Text;
use serde_json::{Number, Value};
use std::alloc::Global;
use uuid::Uuid;

/// The object in the bytes.
pub fn object(alloc: Global, bytes: &[u8]) -> Result<Value, BodyFault>
    ensures ok { IfOk result (λ body. object_of bytes.now ≡ Ok (view body)) }
    ensures fault { IfErr result
        (λ fault. (object_of bytes.now ≡ Err fault) ⊎ (fault ≡ BodyFault.NoMemory)) }
{
    match Value::from_slice(alloc, bytes) {
        Ok(value) => {
            if value.is_object() {
                Ok(value)
            } else {
                Err(BodyFault::NotObject)
            }
        }
        Err(error) if error.is_memory() => Err(BodyFault::NoMemory),
        Err(_) => Err(BodyFault::NotJson),
    }
}

/// A text.
pub fn text(alloc: Global, body: &Value, member: Member) -> Result<Text, BodyFault>
    ensures { UnlessNoMemory result (text_at (view body.now) member) }
{
    let text = text_in(body, member)?;
    Ok(Text::new(String::from_str(alloc, text)?))
}

/// A text, or none where the member is absent.
pub fn optional_text(alloc: Global, body: &Value, member: Member) -> Result<Option<Text>, BodyFault>
    ensures { UnlessNoMemory result (optional_text_at (view body.now) member) }
{
    if body.get(member.name()).is_none() {
        return Ok(None);
    }
    Ok(Some(text(alloc, body, member)?))
}

/// That the member is this text.
pub fn fixed_text(body: &Value, member: Member, expected: &str) -> Result<(), BodyFault>
    ensures { MatchResult result
        (λ _. fixed_text_at expected.now (view body.now) member ≡ Ok expected.now)
        (λ fault. fixed_text_at expected.now (view body.now) member ≡ Err fault) }
{
    let text = text_in(body, member)?;
    if text != expected {
        return Err(BodyFault::Range(member));
    }
    Ok(())
}

/// A text; absent or null is the empty text.
pub fn text_or_empty(alloc: Global, body: &Value, member: Member) -> Result<Text, BodyFault>
    ensures { UnlessNoMemory result (text_or_empty_at (view body.now) member) }
{
    if !is_given(body, member) {
        return Ok(Text::new(String::new(alloc)));
    }
    text(alloc, body, member)
}

/// An object in place.
pub fn object_in(body: &Value, member: Member) -> Result<&Value, BodyFault>
    ensures { MatchResult result
        (λ object. object_at (view body.now) member ≡ Ok (view object.now))
        (λ fault. object_at (view body.now) member ≡ Err fault) }
{
    let value = value_of(body, member)?;
    if !value.is_object() {
        return Err(BodyFault::Kind(member));
    }
    Ok(value)
}

/// An object in place; absent or null is none.
pub fn optional_object(body: &Value, member: Member) -> Result<Option<&Value>, BodyFault>
    ensures { MatchResult result
        (λ found. object_or_empty_at (view body.now) member
        ≡ Ok (option_map_or (λ object. view object.now) found (object no_members)))
        (λ fault. object_or_empty_at (view body.now) member ≡ Err fault) }
{
    if !is_given(body, member) {
        return Ok(None);
    }
    Ok(Some(object_in(body, member)?))
}

/// The objects of a list in place; absent or null is the empty list.
pub fn objects_in(body: &Value, member: Member) -> Result<&[Value], BodyFault>
    ensures { MatchResult result
        (λ list. objects_at (view body.now) member ≡ Ok (map view list.now))
        (λ fault. objects_at (view body.now) member ≡ Err fault) }
{
    let list = list_in(body, member)?;
    if !are_objects(list) {
        return Err(BodyFault::Kind(member));
    }
    Ok(list)
}

/// The texts of a list; absent or null is the empty list.
pub fn texts(alloc: Global, body: &Value, member: Member) -> Result<Texts, BodyFault>
    ensures { UnlessNoMemory result (texts_at (view body.now) member) }
{
    let list = list_in(body, member)?;
    let mut texts = Vec::new(alloc);
    for value in list {
        let Some(text) = value.as_str() else {
            return Err(BodyFault::Kind(member));
        };
        texts.push(Text::new(String::from_str(alloc, text)?))?;
    }
    Ok(Sequence::new(texts))
}

/// A truth value.
pub fn truth(body: &Value, member: Member) -> Result<bool, BodyFault>
    ensures { result ≡ truth_at (view body.now) member }
{
    let value = value_of(body, member)?;
    value.as_bool().ok_or(BodyFault::Kind(member))
}

/// A whole number of an `i64`.
pub fn signed(body: &Value, member: Member) -> Result<i64, BodyFault>
    ensures { result ≡ i64_at (view body.now) member }
{
    Ok(whole(body, member, i64::MIN as i128, i64::MAX as i128)? as i64)
}

/// A whole number of a `u32`.
pub fn unsigned(body: &Value, member: Member) -> Result<u32, BodyFault>
    ensures { MatchResult result (λ number. u32_at (view body.now) member ≡ Ok (pos number))
        (λ fault. u32_at (view body.now) member ≡ Err fault) }
{
    Ok(whole(body, member, 0, u32::MAX as i128)? as u32)
}

/// A whole number of an `i64` without a sign.
pub fn natural(body: &Value, member: Member) -> Result<u64, BodyFault>
    ensures { MatchResult result
        (λ number. whole_at (pos 0) (pos (2 ^ 63 - 1)) (view body.now) member ≡ Ok (pos number))
        (λ fault. whole_at (pos 0) (pos (2 ^ 63 - 1)) (view body.now) member ≡ Err fault) }
{
    Ok(whole(body, member, 0, i64::MAX as i128)? as u64)
}

/// An id, in any of the four text forms that `uuid` reads.
pub fn id(body: &Value, member: Member) -> Result<[u8; 16], BodyFault>
    ensures { result ≡ id_at (view body.now) member }
{
    let text = text_in(body, member)?;
    match Uuid::try_parse(text) {
        Ok(id) => Ok(id.into_bytes()),
        Err(_) => Err(BodyFault::Range(member)),
    }
}

/// A text in place.
pub fn text_in(body: &Value, member: Member) -> Result<&str, BodyFault>
    ensures { MatchResult result (λ text. text_at (view body.now) member ≡ Ok text.now)
        (λ fault. text_at (view body.now) member ≡ Err fault) }
{
    let value = value_of(body, member)?;
    value.as_str().ok_or(BodyFault::Kind(member))
}

/// A whole number from `low` to `high`.
pub fn whole(body: &Value, member: Member, low: i128, high: i128) -> Result<i128, BodyFault>
    ensures { result ≡ whole_at low high (view body.now) member }
{
    let value = value_of(body, member)?;
    let number = value.as_number().and_then(Number::as_i128);
    let number = number.ok_or(BodyFault::Kind(member))?;
    if number < low || high < number {
        return Err(BodyFault::Range(member));
    }
    Ok(number)
}

// The value of a member, of whatever kind.
fn value_of(body: &Value, member: Member) -> Result<&Value, BodyFault>
    ensures { MatchResult result
        (λ value. get (name_of member) (view body.now) ≡ Some (view value.now))
        (λ fault. (get (name_of member) (view body.now) ≡ None)
        × (fault ≡ BodyFault.Missing member)) }
{
    body.get(member.name()).ok_or(BodyFault::Missing(member))
}

// The elements of a list in place; absent or null is the empty list.
fn list_in(body: &Value, member: Member) -> Result<&[Value], BodyFault>
    ensures { MatchResult result
        (λ list. list_at (view body.now) member ≡ Ok (map view list.now))
        (λ fault. list_at (view body.now) member ≡ Err fault) }
{
    if !is_given(body, member) {
        return Ok(&[]);
    }
    let value = value_of(body, member)?;
    let Some(list) = value.as_array() else {
        return Err(BodyFault::Kind(member));
    };
    Ok(list.as_slice())
}

// Whether each value is an object.
fn are_objects(list: &[Value]) -> bool
    ensures { result ≡ list_all (λ value. is_some (as_object (view value))) list.now }
{
    list.iter().all(Value::is_object)
}

// Whether a member is there and not null.
fn is_given(body: &Value, member: Member) -> bool
    ensures { result ≡ is_given (view body.now) member }
{
    match body.get(member.name()) {
        Some(value) => !value.is_null(),
        None => false,
    }
}
