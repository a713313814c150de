//! The numbers that words spell: decimal, without a sign and without leading zeros.

ghost use Rattle.std.specs.Prelude.{◌≡◌, ◌≢◌, ◌<◌, ◌^◌, ℕ, IfSome, IfNone, decimal};
ghost use Rattle.program_words.specs.Options.{IsPositive};

use lab_script::read_number;

/// The number below 2^16 that a text spells.
pub fn read_short(text: &[u8]) -> Option<u16>
    ensures found { IfSome result (λ n. decimal n ≡ text.now) }
    ensures none { IfNone result ((n : ℕ) → n < 2 ^ 16 → decimal n ≢ text.now) }
{
    match read_number(text) {
        None => None,
        Some(n) => u16::try_from(n).ok(),
    }
}

/// The number from 1 to 65,535 that a text spells.
pub fn read_positive(text: &[u8]) -> Option<u16>
    ensures found { IfSome result (λ n. IsPositive n × (decimal n ≡ text.now)) }
    ensures none { IfNone result ((n : ℕ) → IsPositive n → decimal n ≢ text.now) }
{
    let n = read_short(text)?;
    if n == 0 {
        return None;
    }
    Some(n)
}
