//! Bytes in lower-case hexadecimal, and `-` for none.

ghost use Rattle.std.specs.Prelude.{◌≡◌, ◌≢◌, ◌∷◌, ◌++◌, ◌/◌, ◌%◌, [], ℕ, List, IfOk, IfSome, IfNone, OnOk, OnErr, slice_index};
ghost use Rattle.std.specs.Char.{is_ascii_uppercase};
ghost use Rattle.std.specs.List.{list_any};
ghost use Rattle.hex.specs.Hex.{encode_lower, lower_digits};
ghost use Rattle.lab_script.specs.Appending.{Keeps};
ghost use Rattle.lab_script.specs.Words.{hex_text};
ghost use Rattle.lab_script.specs.Command.{IsPayload};

use chan_values::{Bytes, MAX_PAYLOAD, NoMemory};
use hex::FromHexError;
use std::alloc::Global;

/// The payload that a word spells.
pub fn read_payload(alloc: Global, word: &[u8]) -> Result<Option<Bytes>, NoMemory>
    ensures found { IfOk result (λ read. IfSome read (λ payload.
        IsPayload payload × (hex_text payload ≡ word.now))) }
    ensures none { IfOk result (λ read. IfNone read
        ((payload : List ℕ) → IsPayload payload → hex_text payload ≢ word.now)) }
{
    if word == b"-".as_slice() {
        return Ok(Some(Bytes::new(Vec::new(alloc))));
    }
    if word.is_empty() || word.len() > 2 * MAX_PAYLOAD || has_uppercase(word) {
        return Ok(None);
    }
    match hex::decode(alloc, word) {
        Ok(payload) => Ok(Some(Bytes::new(payload))),
        Err(fault) => match fault {
            FromHexError::OutOfMemory => Err(NoMemory),
            _ => Ok(None),
        },
    }
}

// Whether a letter is in upper case.
fn has_uppercase(word: &[u8]) -> bool
    ensures { result ≡ list_any is_ascii_uppercase word.now }
{
    word.iter().any(|b| b.is_ascii_uppercase())
}

/// Puts the text of some bytes at the end.
pub fn push_bytes(out: &mut Vec<u8>, bytes: &[u8]) -> Result<(), NoMemory>
    ensures ok { OnOk result (out.new.items ≡ out.old.items ++ hex_text bytes.now) }
    ensures err { OnErr result (Keeps out.old.items out.new.items) }
{
    if bytes.is_empty() {
        out.push(b'-')?;
        return Ok(());
    }
    push_pairs(out, bytes)
}

fn push_pairs(out: &mut Vec<u8>, bytes: &[u8]) -> Result<(), NoMemory>
    ensures ok { OnOk result (out.new.items ≡ out.old.items ++ encode_lower bytes.now) }
    ensures err { OnErr result (Keeps out.old.items out.new.items) }
{
    for byte in bytes {
        out.extend_from_slice(&pair(*byte))?;
    }
    Ok(())
}

// The two digits of a byte.
fn pair(byte: u8) -> [u8; 2]
    ensures { result ≡ slice_index lower_digits (byte / 16)
        ∷ slice_index lower_digits (byte % 16) ∷ [] }
{
    let digits = b"0123456789abcdef";
    [
        digits[usize::from(byte / 16)],
        digits[usize::from(byte % 16)],
    ]
}
