//! The message that bytes spell, or the first thing that is wrong with them.

ghost use Rattle.std.specs.Prelude.{◌≡◌, ◌≢◌, ◌+◌, ◌≤◌, ◌⊎◌, Result, Ok, Err, length, IfOk, IfErr, OnOk};
ghost use Rattle.std.specs.Int.{w32, w64, cast_signed};
ghost use Rattle.agent_message.specs.Decoding.{Decodes};
ghost use Rattle.agent_message.specs.Fields.{number_at, name_field, message_in};
ghost use Rattle.agent_message.specs.Layout.{canonical, IsEncodable};
ghost use Rattle.agent_message.specs.Names.{name_of};
ghost use Rattle.agent_message.specs.Refusals.{IsFaultlessBelow, Refuses};
ghost use Rattle.agent_message.specs.declared.message.Message.{Message};
ghost use Rattle.agent_message.specs.declared.refusal.Refusal.{Refusal};

use crate::encoding::{HEADER_LENGTH, PAYLOAD_START};
use crate::field::{array_at, i64_at, id_at, u32_at, u64_at};
use crate::message::Message;
use crate::name::Name;
use crate::refusal::Refusal;
use chan_values::{Bytes, MAX_PAYLOAD};
use sha2::{Digest, Sha256};
use std::alloc::Global;

/// The message that all of the bytes spell.
pub fn decode(alloc: Global, bytes: &[u8]) -> Result<Message, Refusal>
    ensures read { IfOk result (λ m. Decodes bytes.now (Ok m)) }
    ensures refused { IfErr result (λ e. (e ≡ Refusal.NoMemory) ⊎ Decodes bytes.now (Err e)) }

    // No other answer comes, but for want of memory.
    ensures only { (answer : Result Message Refusal) → Decodes bytes.now answer
        → (result ≡ answer) ⊎ (result ≡ Err Refusal.NoMemory) }
    ensures again { (m : Message) → IsEncodable m → bytes.now ≡ canonical m
        → (result ≡ Ok m) ⊎ (result ≡ Err Refusal.NoMemory) }
{
    let name = judged_name(bytes)?;
    message_of(alloc, name, bytes)
}

/// The name of bytes that have no fault.
fn judged_name(bytes: &[u8]) -> Result<Name, Refusal>
    ensures read { IfOk result (λ name. name ≡ name_of (name_field bytes.now)) }
    ensures long { OnOk result (120 ≤ length bytes.now) }
    ensures faultless { OnOk result (IsFaultlessBelow 8 bytes.now) }
    ensures refused { IfErr result (Refuses bytes.now) }
{
    let name = header_name(bytes)?;
    judge_length(bytes)?;
    judge_content(name, bytes)?;
    Ok(name)
}

/// The name, after the tests of the header.
fn header_name(bytes: &[u8]) -> Result<Name, Refusal>
    ensures read { IfOk result (λ name. name ≡ name_of (name_field bytes.now)) }
    ensures long { OnOk result (120 ≤ length bytes.now) }
    ensures faultless { OnOk result (IsFaultlessBelow 4 bytes.now) }
    ensures refused { IfErr result (Refuses bytes.now) }
{
    if bytes.len() < PAYLOAD_START {
        return Err(Refusal::Short(bytes.len()));
    }
    let said = u32_at(bytes, 0);
    if said != HEADER_LENGTH {
        return Err(Refusal::HeaderLength(said));
    }
    match Name::read(&bytes[4..36]) {
        Ok(name) => Ok(name),
        Err(place) => Err(Refusal::Name(4 + place)),
    }
}

/// Tests the length that is said of the payload.
fn judge_length(bytes: &[u8]) -> Result<(), Refusal>
    requires long { 120 ≤ length bytes.now }
    requires faultless { IsFaultlessBelow 4 bytes.now }
    ensures faultless { OnOk result (IsFaultlessBelow 6 bytes.now) }
    ensures refused { IfErr result (Refuses bytes.now) }
{
    let said = u32_at(bytes, 116);
    let have = bytes.len() - PAYLOAD_START;
    if said as usize != have {
        return Err(Refusal::Length { said, have });
    }
    if have > MAX_PAYLOAD {
        return Err(Refusal::TooLong(said));
    }
    Ok(())
}

/// Tests the date and the digest, but for the two names that need neither.
fn judge_content(name: Name, bytes: &[u8]) -> Result<(), Refusal>
    requires named { name ≡ name_of (name_field bytes.now) }
    requires long { 120 ≤ length bytes.now }
    requires faultless { IsFaultlessBelow 6 bytes.now }
    ensures faultless { OnOk result (IsFaultlessBelow 8 bytes.now) }
    ensures refused { IfErr result (Refuses bytes.now) }
{
    if name.is_publication() {
        return Ok(());
    }
    if u64_at(bytes, 40) == 0 {
        return Err(Refusal::Date);
    }
    let payload = &bytes[PAYLOAD_START..];
    if payload.is_empty() {
        return Ok(());
    }
    let said = array_at(bytes, 80);
    let computed = Sha256::digest(payload);
    if said != computed {
        return Err(Refusal::Digest { said, computed });
    }
    Ok(())
}

/// The message whose fields stand at the offsets.
fn message_of(alloc: Global, name: Name, bytes: &[u8]) -> Result<Message, Refusal>
    requires named { name ≡ name_of (name_field bytes.now) }
    requires long { 120 ≤ length bytes.now }
    ensures read { IfOk result (λ m. m ≡ message_in bytes.now) }
    ensures refused { IfErr result (λ e. e ≡ Refusal.NoMemory) }
{
    let payload = Vec::from_slice(alloc, &bytes[PAYLOAD_START..])?;
    Ok(Message {
        name,
        schema: u32_at(bytes, 36),
        date: u64_at(bytes, 40),
        seq: i64_at(bytes, 48),
        flags: u64_at(bytes, 56),
        id: id_at(bytes, 64),
        ptype: u32_at(bytes, 112),
        payload: Bytes::new(payload),
    })
}
