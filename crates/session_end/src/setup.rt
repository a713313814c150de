//! What a run is set to, and the texts of its openings.

ghost use Rattle.std.specs.Prelude.{◌≡◌, IfOk};
ghost use Rattle.uuid.specs.Text.{hyphenated_text, lower};
ghost use Rattle.session_register.specs.Tokens.{token_digits};
ghost use Rattle.session_end.specs.Setups.{setting_of};

use chan_values::{NoMemory, Side, Text};
use session_register::{Token, TokenValue};
use session_workers::LinkSetting;
use std::alloc::Global;
use std::str;
use uuid::Uuid;

/// What a run is set to.
#[derive(Debug, Drop)]
pub struct Setup {
    /// The side of the end.
    pub side: Side,
    /// The address of the relay.
    pub address: Text,
    /// The session, and the first token that opens it.
    pub token: TokenValue,
    /// The window, in messages: 1 to 10,000.
    pub window: u64,
}

impl Setup {
    /// What stays the same in all openings of a run with this base.
    pub(crate) fn setting(self, alloc: Global, base: [u8; 16]) -> Result<LinkSetting, NoMemory>
        ensures { IfOk result (λ setting. setting ≡ setting_of self base) }
    {
        Ok(LinkSetting {
            side: self.side,
            window: self.window,
            address: self.address,
            client: base_text(alloc, base)?,
            session: Text::new(String::from_str(alloc, self.token.session.as_str())?),
            role: self.token.role,
        })
    }
}

/// The hyphenated text of a base.
fn base_text(alloc: Global, base: [u8; 16]) -> Result<Text, NoMemory>
    ensures { IfOk result (λ text. text ≡ hyphenated_text lower base) }
{
    let id = Uuid::from_bytes(base).hyphenated();
    let mut buffer = Uuid::encode_buffer();
    Ok(Text::new(String::from_str(alloc, id.encode_lower(&mut buffer))?))
}

/// The digits of a token.
pub(crate) fn digits_text(alloc: Global, token: Token) -> Result<Text, NoMemory>
    ensures { IfOk result (λ text. text ≡ token_digits token) }
{
    let digits = token.digits();
    match str::from_utf8(&digits) {
        Ok(text) => Ok(Text::new(String::from_str(alloc, text)?)),
        Err(_) => unreachable!(),
    }
}
