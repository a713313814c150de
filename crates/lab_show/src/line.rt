//! The line of one message.

ghost use Rattle.std.specs.Prelude.{◌≡◌, ◌∷◌, ◌++◌, OnOk};
ghost use Rattle.uuid.specs.Text.{hyphenated_text, lower};
ghost use Rattle.lab_show.specs.Lines.{show_line};

use agent_message::Message;
use chan_values::NoMemory;
use itoa::Buffer;
use uuid::Uuid;

/// Puts the line of a message whose piece begins at a place. On want of memory a part of it is put.
pub(crate) fn push_line(out: &mut Vec<u8>, at: u64, message: &Message) -> Result<(), NoMemory>
    ensures { OnOk result (out.new.items ≡ out.old.items ++ show_line at message.now) }
{
    let mut digits = Buffer::new();
    out.extend_from_slice(digits.format(at).as_bytes())?;
    push_word(out, message.name.as_bytes())?;
    push_word(out, digits.format(message.seq).as_bytes())?;
    push_word(out, digits.format(message.flags).as_bytes())?;
    push_word(out, digits.format(message.ptype).as_bytes())?;
    push_word(out, digits.format(message.payload.len()).as_bytes())?;
    push_id(out, message.id)?;
    out.push(b'\n')?;
    Ok(())
}

// A space and a word.
fn push_word(out: &mut Vec<u8>, word: &[u8]) -> Result<(), NoMemory>
    ensures { OnOk result (out.new.items ≡ out.old.items ++ 32 ∷ word.now) }
{
    out.push(b' ')?;
    out.extend_from_slice(word)?;
    Ok(())
}

// A space and an id.
fn push_id(out: &mut Vec<u8>, id: [u8; 16]) -> Result<(), NoMemory>
    ensures { OnOk result (out.new.items ≡ out.old.items ++ 32 ∷ hyphenated_text lower id) }
{
    let mut buffer = Uuid::encode_buffer();
    let id = Uuid::from_bytes(id).hyphenated();
    push_word(out, id.encode_lower(&mut buffer).as_bytes())
}
