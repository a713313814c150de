//! A message as bytes.

ghost use Rattle.std.specs.Prelude.{◌≡◌, ◌<◌, ◌≤◌, ◌⊎◌, ◌++◌, IfOk, OnOk, length};
ghost use Rattle.chan_values.specs.Limits.{max_payload};
ghost use Rattle.agent_message.specs.Heads.{message_with};
ghost use Rattle.agent_message.specs.Layout.{canonical, IsEncodable};
ghost use Rattle.agent_message.specs.Names.{IsPublication};

use crate::message::{Head, Message};
use chan_values::NoMemory;
use sha2::{Digest, Sha256};
use std::alloc::Global;

/// The number in the first field: the bytes before PayloadLength.
pub(crate) const HEADER_LENGTH: u32 = 116;

/// Where the payload begins.
pub(crate) const PAYLOAD_START: usize = 120;

/// The bytes of one message: the name filled up with spaces, and the digest of the payload.
pub fn encode(alloc: Global, message: &Message) -> Result<Vec<u8>, NoMemory>
    requires sized { length message.now.payload ≤ max_payload }
    requires dated { (0 < message.now.date) ⊎ IsPublication message.now.name }
    ensures canonical { IfOk result (λ bytes. bytes.items ≡ canonical message.now) }
    ensures encodable { IfOk result (λ _. IsEncodable message.now) }
{
    encode_parts(alloc, &message.head(), message.payload.as_slice())
}

/// The same of a message whose payload stands somewhere else. It is copied once, behind the header.
pub fn encode_parts(alloc: Global, head: &Head, payload: &[u8]) -> Result<Vec<u8>, NoMemory>
    requires sized { length payload.now ≤ max_payload }
    requires dated { (0 < head.now.date) ⊎ IsPublication head.now.name }
    ensures canonical { IfOk result (λ bytes.
        bytes.items ≡ canonical (message_with head.now payload.now)) }
    ensures encodable { IfOk result (λ _. IsEncodable (message_with head.now payload.now)) }
{
    let mut bytes = Vec::with_capacity(alloc, PAYLOAD_START + payload.len())?;
    push_encoding(&mut bytes, head, payload)?;
    Ok(bytes)
}

/// Puts the bytes of a message at the end. On want of memory a part of them is put.
pub(crate) fn push_encoding(out: &mut Vec<u8>, head: &Head, payload: &[u8]) -> Result<(), NoMemory>
    requires sized { length payload.now ≤ max_payload }
    requires dated { (0 < head.now.date) ⊎ IsPublication head.now.name }
    ensures canonical { OnOk result
        (out.new.items ≡ out.old.items ++ canonical (message_with head.now payload.now)) }
    ensures encodable { OnOk result (IsEncodable (message_with head.now payload.now)) }
{
    let digest = Sha256::digest(payload);
    out.extend_from_slice(&HEADER_LENGTH.to_be_bytes())?;
    out.extend_from_slice(head.name.as_field())?;
    out.extend_from_slice(&head.schema.to_be_bytes())?;
    out.extend_from_slice(&head.date.to_be_bytes())?;
    out.extend_from_slice(&head.seq.to_be_bytes())?;
    out.extend_from_slice(&head.flags.to_be_bytes())?;
    out.extend_from_slice(&head.id[8..])?;
    out.extend_from_slice(&head.id[..8])?;
    out.extend_from_slice(&digest)?;
    out.extend_from_slice(&head.ptype.to_be_bytes())?;
    out.extend_from_slice(&(payload.len() as u32).to_be_bytes())?;
    out.extend_from_slice(payload)?;
    Ok(())
}
