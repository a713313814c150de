//! The text `SESSION.ROLE.TOKEN`, with which an end opens its session.

ghost use Rattle.std.specs.Prelude.{◌≡◌, ◌++◌, ℕ, List, Some, IfOk, IfSome, MatchOption};
ghost use Rattle.chan_values.specs.declared.side.Side.{Side};
ghost use Rattle.session_register.specs.declared.token_value.TokenValue.{TokenValue};
ghost use Rattle.session_register.specs.TokenTexts.{IsTextOf, role_part, token_text};

use crate::name::SessionName;
use crate::token::{TOKEN_DIGITS, Token};
use chan_values::{NoMemory, Side};
use std::alloc::Global;

/// What an opening names.
#[derive(Clone, Copy, Debug)]
pub struct TokenValue {
    /// The session.
    pub session: SessionName,
    /// The end.
    pub role: Side,
    /// The token, of any count.
    pub token: Token,
}

impl TokenValue {
    /// The value that the text spells. The token of a value may be one that no chain has.
    pub fn read(text: &[u8]) -> Option<TokenValue>
        ensures value { IfSome result (λ value. IsTextOf value text.now) }
        ensures found { (value : TokenValue) → IsTextOf value text.now → result ≡ Some value }
    {
        let (front, digits) = text.split_last_chunk::<TOKEN_DIGITS>()?;
        let (name, role) = split_role(front)?;
        let session = SessionName::new(name)?;
        let token = Token::from_digits(digits)?;
        Some(TokenValue {
            session,
            role,
            token,
        })
    }

    /// The text of the value.
    pub fn write(&self, alloc: Global) -> Result<Vec<u8>, NoMemory>
        ensures { IfOk result (λ text. text.items ≡ token_text self.now) }
    {
        let mut text = Vec::from_slice(alloc, self.session.as_bytes())?;
        text.extend_from_slice(role_part(self.role))?;
        text.extend_from_slice(&self.token.digits())?;
        Ok(text)
    }
}

/// The name and the end that stand before the digits.
fn split_role(front: &[u8]) -> Option<(&[u8], Side)>
    ensures value { IfSome result (λ split. front.now ≡ split.0.now ++ role_part split.1) }
    ensures found { (name : List ℕ) (role : Side) → front.now ≡ name ++ role_part role
        → MatchOption result ⊥ (λ split. (split.0.now ≡ name) × (split.1 ≡ role)) }
{
    if let Some(name) = front.strip_suffix(role_part(Side::Plugin)) {
        Some((name, Side::Plugin))
    } else if let Some(name) = front.strip_suffix(role_part(Side::Agent)) {
        Some((name, Side::Agent))
    } else {
        None
    }
}

fn role_part(role: Side) -> &'static [u8]
    ensures { result.now ≡ role_part role }
{
    match role {
        Side::Plugin => b".plugin.",
        Side::Agent => b".agent.",
    }
}

#[cfg(test)]
mod tests;
