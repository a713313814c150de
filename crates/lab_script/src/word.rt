//! What one word of a line says: a number, an end, an emission.

ghost use Rattle.std.specs.Prelude.{◌≡◌, ◌≢◌, ◌<◌, ◌^◌, ◌++◌, ℕ, IfSome, IfNone, OnOk, OnErr, decimal};
ghost use Rattle.chan_values.specs.declared.side.Side.{Side};
ghost use Rattle.lab_script.specs.Words.{side_text};

use chan_values::{NoMemory, Side};
use itoa::Buffer;

/// The number below 2^64 that a word spells: decimal, without a sign and without leading zeros.
pub fn read_number(word: &[u8]) -> Option<u64>
    ensures found { IfSome result (λ n. decimal n ≡ word.now) }
    ensures none { IfNone result ((n : ℕ) → n < 2 ^ 64 → decimal n ≢ word.now) }
{
    let Ok(text) = str::from_utf8(word) else {
        return None;
    };
    let Ok(n) = text.parse::<u64>() else {
        return None;
    };
    // `parse` also takes a plus sign and leading zeros.
    if Buffer::new().format(n) == text {
        Some(n)
    } else {
        None
    }
}

/// The number below 2^32 that a word spells.
pub fn read_short_number(word: &[u8]) -> Option<u32>
    ensures found { IfSome result (λ n. decimal n ≡ word.now) }
    ensures none { IfNone result ((n : ℕ) → n < 2 ^ 32 → decimal n ≢ word.now) }
{
    match read_number(word) {
        None => None,
        Some(n) => u32::try_from(n).ok(),
    }
}

/// Puts the text of a number at the end.
pub fn push_number(out: &mut Vec<u8>, n: u64) -> Result<(), NoMemory>
    ensures ok { OnOk result (out.new.items ≡ out.old.items ++ decimal n) }
    ensures err { OnErr result (out.new.items ≡ out.old.items) }
{
    out.extend_from_slice(Buffer::new().format(n).as_bytes())?;
    Ok(())
}

/// The end that a word names.
pub fn read_side(word: &[u8]) -> Option<Side>
    ensures found { IfSome result (λ side. side_text side ≡ word.now) }
    ensures none { IfNone result ((side : Side) → side_text side ≢ word.now) }
{
    match word {
        b"P" => Some(Side::Plugin),
        b"A" => Some(Side::Agent),
        _ => None,
    }
}

/// The letter of an end, as a word.
pub fn letter_of(side: Side) -> &'static str
    ensures { result.now ≡ side_text side }
{
    match side {
        Side::Plugin => "P",
        Side::Agent => "A",
    }
}

/// One of an end's emissions, which are numbered from 0.
#[derive(Clone, Copy, Debug, PartialEq, Eq)]
pub enum Which {
    /// The emission of this number.
    Number(u64),
    /// The latest emission.
    Last,
}

impl Which {
    ghost use Rattle.lab_script.specs.declared.word.Which.{Which};
    ghost use Rattle.lab_script.specs.Words.{which_text, IsWhich};

    /// The emission that a word means.
    pub fn read(word: &[u8]) -> Option<Which>
        ensures found { IfSome result (λ which. IsWhich which × (which_text which ≡ word.now)) }
        ensures none { IfNone result
            ((which : Which) → IsWhich which → which_text which ≢ word.now) }
    {
        if word == b"last".as_slice() {
            return Some(Which::Last);
        }
        match read_number(word) {
            None => None,
            Some(n) => Some(Which::Number(n)),
        }
    }
}
