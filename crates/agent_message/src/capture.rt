//! A capture: the messages of a link, each in a piece of its length and its bytes.

ghost use Rattle.std.specs.Prelude.{◌≡◌, ◌<◌, ◌≤◌, ◌⊎◌, ◌++◌, IfOk, List, ℕ, length};
ghost use Rattle.chan_values.specs.Limits.{max_payload};
ghost use Rattle.agent_message.specs.Captures.{piece};
ghost use Rattle.agent_message.specs.Layout.{canonical, IsEncodable};
ghost use Rattle.agent_message.specs.Names.{IsPublication};
ghost use Rattle.agent_message.specs.CaptureFronts.{IsFront};

use crate::capture_fault::CaptureCause;
use crate::decoding::decode;
use crate::encoding::{PAYLOAD_START, push_encoding};
use crate::field::u32_at;
use crate::message::Message;
use crate::refusal::Refusal;
use chan_values::{MAX_PAYLOAD, NoMemory};
use std::alloc::Global;

/// The bytes of a piece before its message: be32 of the message's length.
pub(crate) const SIZE_LENGTH: usize = 4;

/// The longest message, in bytes.
const MAX_MESSAGE: usize = PAYLOAD_START + MAX_PAYLOAD;

/// What is at the front of bytes.
pub(crate) enum Front {
    /// Less than a piece.
    Unfinished,
    /// A whole piece.
    Whole(Message),
    /// A length or a piece that is not allowed.
    Broken(CaptureCause),
}

/// The piece of one message in a capture.
pub fn capture_piece(alloc: Global, message: &Message) -> Result<Vec<u8>, NoMemory>
    requires sized { length message.now.payload ≤ max_payload }
    requires dated { (0 < message.now.date) ⊎ IsPublication message.now.name }
    ensures piece { IfOk result (λ bytes. bytes.items ≡ piece (canonical message.now)) }
    ensures encodable { IfOk result (λ _. IsEncodable message.now) }
{
    let payload = message.payload.as_slice();
    let size = PAYLOAD_START + payload.len();
    let mut bytes = Vec::with_capacity(alloc, SIZE_LENGTH + size)?;
    bytes.extend_from_slice(&(size as u32).to_be_bytes())?;
    push_encoding(&mut bytes, &message.head(), payload)?;
    Ok(bytes)
}

/// What is at the front of these bytes.
pub(crate) fn front_of(alloc: Global, bytes: &[u8]) -> Result<Front, NoMemory>
    ensures { IfOk result (IsFront bytes.now) }
{
    if bytes.len() < SIZE_LENGTH {
        return Ok(Front::Unfinished);
    }
    let said = u32_at(bytes, 0);
    let size = said as usize;
    if size > MAX_MESSAGE {
        return Ok(Front::Broken(CaptureCause::Size(said)));
    }
    if bytes.len() - SIZE_LENGTH < size {
        return Ok(Front::Unfinished);
    }
    match decode(alloc, &bytes[SIZE_LENGTH..SIZE_LENGTH + size]) {
        Ok(message) => Ok(Front::Whole(message)),
        Err(refusal) => match refusal {
            Refusal::NoMemory => Err(NoMemory),
            _ => Ok(Front::Broken(CaptureCause::Message(refusal))),
        },
    }
}
